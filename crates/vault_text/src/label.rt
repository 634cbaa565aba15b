//! Labels of vault ids.
ghost use Rattle.std.specs.Prelude.{◌≡◌, ◌↔◌, ℕ, List, true, is_ok, is_some, IsTrue, IfOk, IfSome};
ghost use Rattle.std.specs.Str.{bytes_eq};
ghost use Rattle.std.specs.Cmp.{on_equiv, on_per, partial_equiv_from_equiv};
ghost use Rattle.std.specs.Cmp.Lexicographic.{nat_list_eq_equiv};
ghost use Rattle.std.specs.List.{list_all};
ghost use Rattle.vault_text.specs.Header.{label_or_default};
ghost use Rattle.vault_text.specs.Label.{is_label, is_label_character, default_label};

use crate::limits::LABEL_LIMIT;
use arrayvec::ArrayString;
use std::marker::Model;
use std::str;
use thiserror::Error;

/// A text is not allowed as a label.
#[derive(Clone, Copy, Debug, PartialEq, Eq, Error)]
#[error("a vault id label is not allowed")]
pub struct BadLabel;

/// The label of a vault id: 1 to 128 characters of printable ASCII without semicolons, neither the
/// first nor the last of them a space.
#[derive(Debug, Drop)]
pub struct Label {
    text: ArrayString<LABEL_LIMIT>,
}

impl Model for Label {
    ghost use Rattle.std.specs.Prelude.{◌≡◌, ℕ, List, true};
    ghost use Rattle.vault_text.specs.Label.{is_label};

    ghost Value = { List ℕ };

    ghost view = { λ l. l.text.bytes };

    ghost invariant = { λ l. is_label l.text.bytes ≡ true };
}

fn is_label_character(byte: u8) -> bool
    ensures { result ≡ is_label_character byte }
{
    matches!(byte, b' '..=b'~') && byte != b';'
}

fn has_label_characters(text: &[u8]) -> bool
    ensures { result ≡ list_all is_label_character text.now }
{
    text.iter().all(|byte| is_label_character(*byte))
}

fn is_label(text: &[u8]) -> bool
    ensures { result ≡ is_label text.now }
{
    if text.is_empty() || text.len() > LABEL_LIMIT || !has_label_characters(text) {
        return false;
    }
    text[0] != b' ' && text[text.len() - 1] != b' '
}

impl Label {
    /// Fails if the text is not allowed as a label.
    pub fn new(text: &str) -> Result<Self, BadLabel>
        ensures allowed { is_ok result ≡ is_label text.now }
        ensures text { IfOk result (λ label. label ≡ text.now) }
    {
        if !is_label(text.as_bytes()) {
            return Err(BadLabel);
        }
        Ok(Label {
            text: ArrayString::from(text).unwrap(),
        })
    }

    /// The label with this text, or `default` if it is empty.
    pub fn new_or_default(text: &str) -> Result<Self, BadLabel>
        ensures allowed { is_ok result ≡ is_label (label_or_default text.now) }
        ensures text { IfOk result (λ label. label ≡ label_or_default text.now) }
    {
        if text.is_empty() {
            Ok(Label::default_label())
        } else {
            Label::new(text)
        }
    }

    /// The label with these bytes, or `default` if there are none; None if they are not allowed.
    pub(crate) fn from_bytes_or_default(bytes: &[u8]) -> Option<Self>
        ensures allowed { is_some result ≡ is_label (label_or_default bytes.now) }
        ensures text { IfSome result (λ label. label ≡ label_or_default bytes.now) }
    {
        match str::from_utf8(bytes) {
            Ok(text) => Label::new_or_default(text).ok(),
            Err(_) => None,
        }
    }

    /// `default`, the label of vaults that name none.
    pub fn default_label() -> Self
        ensures { result ≡ default_label }
    {
        let mut text = ArrayString::new();
        text.push_str("default");
        Label { text }
    }

    /// A second label with the same text.
    pub fn copy(&self) -> Self
        ensures { result ≡ self.now }
    {
        let mut text = ArrayString::new();
        text.push_str(self.text.as_str());
        Label { text }
    }

    /// The text, 1 to 128 bytes of ASCII.
    pub fn as_str(&self) -> &str
        ensures text { result.now ≡ self.now }
        ensures allowed { is_label result.now ≡ true }
    {
        self.text.as_str()
    }
}

impl PartialEq for Label {
    ghost eq = { bytes_eq };

    ghost laws = { on_per (λ l. l) (partial_equiv_from_equiv nat_list_eq_equiv) };

    fn eq(&self, other: &Self) -> bool
        ensures value { result ≡ bytes_eq self.now other.now }
        ensures same_text { IsTrue result ↔ (self.now ≡ other.now) }
    {
        self.as_str() == other.as_str()
    }
}

impl Eq for Label {
    ghost laws = { on_equiv (λ l. l) nat_list_eq_equiv };
}
