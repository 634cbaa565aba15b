//! What the label of an envelope means.

/// What the label of an envelope says about the secrets to try.
#[derive(Clone, Copy, Debug, PartialEq, Eq)]
pub enum LabelRule {
    /// Secrets with that label are tried first, then the others.
    Hint,
    /// Only secrets with that label are tried.
    Required,
}
