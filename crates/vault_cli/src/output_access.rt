//! The permissions of the output.
ghost use Rattle.std.specs.Prelude.{◌≡◌};
ghost use Rattle.vault_cli.specs.Access.{output_access};

use vault_files::Access;
use vault_request::CommandName;

/// The permissions of an existing output: only its owner may read and write plaintext.
pub(crate) fn output_access(command: CommandName) -> Access
    ensures { result ≡ output_access command }
{
    match command {
        CommandName::Decrypt | CommandName::View => Access::OwnerOnly,
        CommandName::Encrypt | CommandName::EncryptString | CommandName::Rekey => Access::Kept,
    }
}
