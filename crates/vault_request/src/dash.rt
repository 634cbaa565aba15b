//! `-` in place of a file or a STRING.
ghost use Rattle.std.specs.Prelude.{◌≡◌};
ghost use Rattle.std.specs.Option.{option_copied};
ghost use Rattle.vault_request.specs.Dash.{unless_dash};

/// `None` if the word is `-`, which stands for a standard stream.
pub(crate) fn unless_dash(word: Option<&str>) -> Option<&str>
    ensures { option_copied result ≡ unless_dash (option_copied word.entry) }
{
    match word {
        Some(word) if word != "-" => Some(word),
        _ => None,
    }
}
