//! A record of the calls on files. It exists only in proofs.
ghost use Rattle.std.specs.Prelude.{◌≡◌, []};
ghost use Rattle.std.specs.Borrow.{ftrue};
ghost use Rattle.vault_files.specs.HostCall.{HostCalls};

use super::host_call::HostCall;
use std::marker::Model;

/// Calls, in the order in which they were noted. It takes no memory.
///
/// Nothing in memory shows which calls these are, so the functions below meet their contracts with
/// empty bodies. A record is as true as whoever notes the calls: only `HostFiles` can do that.
#[derive(Drop)]
pub struct CallLog {
    pub ghost calls: { HostCalls },
}

impl Model for CallLog {
    ghost also_owns = { λ _. ftrue };
}

impl CallLog {
    ghost use Rattle.vault_files.specs.HostCall.{noted};

    pub fn new() -> CallLog
        ensures { result.calls ≡ [] }
    {
        CallLog {}
    }

    /// The record with one more call.
    pub fn with(&self, _call: &HostCall<&[u8]>) -> CallLog
        ensures { result.calls ≡ noted self.now.calls _call.now }
    {
        CallLog {}
    }
}
