//! The salt file.
ghost use Rattle.std.specs.Prelude.{◌≡◌};
ghost use Rattle.std.specs.Option.{option_copied};
ghost use Rattle.vault_request.specs.Settled.{salt_path_of};

use crate::options::Options;

const DEFAULT_SALT_FILE: &str = "/dev/urandom";

/// The path of the salt file, if one is used.
pub(crate) fn salt_path_of<'a>(options: &Options<'_, 'a>) -> Option<&'a str>
    ensures { option_copied result ≡ salt_path_of options.now }
{
    if options.salt_text.is_some() || !options.command.seals() {
        return None;
    }
    match options.salt_file {
        Some(path) => Some(path),
        None => Some(DEFAULT_SALT_FILE),
    }
}
