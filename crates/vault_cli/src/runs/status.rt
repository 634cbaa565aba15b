//! How a run ends.
ghost use Rattle.std.specs.Prelude.{◌≡◌};
ghost use Rattle.vault_cli.specs.runs.Status.{code_of, status_of};

use vault_core::Fault;

/// How a run ends, as the program's exit status reports it.
#[derive(Clone, Copy, Debug, PartialEq, Eq)]
pub enum Status {
    /// The whole output was written.
    Success,
    /// The input, a secret or an option was refused.
    Refused,
    /// The arguments do not parse.
    ParseFault,
    /// A file, a source or a sink failed.
    DeviceFailed,
    /// Memory ran out; no output was begun.
    OutOfMemory,
}

impl Status {
    /// The exit status, 0 to 4.
    pub fn code(self) -> u8
        ensures { result ≡ code_of self }
    {
        match self {
            Status::Success => 0,
            Status::Refused => 1,
            Status::ParseFault => 2,
            Status::DeviceFailed => 3,
            Status::OutOfMemory => 4,
        }
    }
}

/// How a run with this fault ends.
pub(crate) fn status_of(fault: Fault) -> Status
    ensures { result ≡ status_of fault }
{
    match fault {
        Fault::Read(_) | Fault::Write | Fault::CannotOpen(_) => Status::DeviceFailed,
        Fault::Memory => Status::OutOfMemory,
        _ => Status::Refused,
    }
}
