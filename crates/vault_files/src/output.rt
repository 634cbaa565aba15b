//! Output that goes to a file of a system.
ghost use Rattle.std.specs.Prelude.{◌≡◌, List, [], ◌∷◌, MatchResult};
ghost use Rattle.vault_files.specs.declared.access.Access.TheVariants.{OwnerOnly};
ghost use Rattle.vault_files.specs.System.{SystemCall};
ghost use Rattle.vault_files.specs.System.SystemCall.{ChmodOwnerOnly, Failed};
ghost use Rattle.vault_files.specs.Output.{FailsToBegin, beginning, restricting};
ghost use Rattle.vault_files.specs.Output.OutputState.{Chosen};

use crate::access::Access;
use crate::system::System;
use std::io;
use std::marker::Model;
use vault_text::{FailureCount, Sink, SinkFailed};

/// The state of the output.
#[derive(Drop)]
pub enum State<W> {
    Chosen,
    Open(W),
    Finished,
}

/// An output at a path of a system. `begin` opens it, restricts it to its owner under
/// `Access::OwnerOnly`, and only then truncates it. If one of these fails, so does `begin`, and an
/// existing file keeps its bytes. `finish` syncs the output and closes it.
#[derive(Drop)]
pub struct FileOutput<'a, D: System> {
    system: &'a mut D,
    path: &'a str,
    access: Access,
    state: State<D::Writer>,
    failures: FailureCount,
}

impl<'a, D: System> Model for FileOutput<'a, D> {
    ghost use Rattle.vault_files.specs.Output.{FileOutputState, output_of};

    ghost Value = { FileOutputState D };

    ghost view = { λ s. record {
      system = s.system;
      output = output_of s.path.now s.access s.state;
      failures = s.failures;
    } };
}

impl<'a, D: System> FileOutput<'a, D> {
    /// An output at this path. Nothing is created yet.
    pub fn new(system: &'a mut D, path: &'a str, access: Access) -> Self
        ensures same_reference { result.system.ghost_name ≡ system.entry.ghost_name }
        ensures system { result.system.now ≡ system.old }
        ensures chosen { result.output ≡ Chosen path.now access }
        ensures failures { result.failures ≡ 0 }
    {
        FileOutput {
            system,
            path,
            access,
            state: State::Chosen,
            failures: FailureCount::new(),
        }
    }

    /// The system, with the output as it was left.
    pub fn into_system(self) -> &'a mut D
        ensures same_reference { result.ghost_name ≡ self.entry.system.ghost_name }
        ensures system { result.now ≡ self.entry.system.now }
    {
        let FileOutput { system, state, .. } = self;
        drop(state);
        system
    }
}

/// Restricts an open output to its owner, unless its permissions are kept.
fn restrict<D: System>(system: &mut D, file: &D::Writer, access: Access) -> io::Result<()>
    ensures { MatchResult result
        (λ _. D.executes system.old (restricting access) system.new)
        (λ error. (access ≡ OwnerOnly)
        × D.executes system.old (Failed ChmodOwnerOnly ∷ []) system.new) }
{
    match access {
        Access::Kept => Ok(()),
        Access::OwnerOnly => system.chmod_owner_only(file),
    }
}

/// Opens the file to write, and empties it.
fn open_output<D: System>(system: &mut D, path: &str, access: Access) -> io::Result<D::Writer>
    ensures { MatchResult result
        (λ file. D.executes system.old (beginning path.now access) system.new)
        (λ error. (calls : List SystemCall) × FailsToBegin path.now access calls
        × D.executes system.old calls system.new) }
{
    let file = system.create(path)?;
    restrict(system, &file, access)?;
    system.truncate(&file)?;
    Ok(file)
}

impl<'a, D: System> Sink for FileOutput<'a, D> {
    ghost use Rattle.std.proofs.Common.{arith};
    ghost use Rattle.vault_files.specs.Output.{FileTakes, stage_of};
    ghost use Rattle.vault_files.specs.OutputProofs.{FileTakes-none, FileTakes-more};

    ghost takes = { FileTakes D.executes };

    ghost stage = { λ s. stage_of s.output };

    ghost failures = { λ s. s.failures };

    ghost takes_none = { FileTakes-none D.executes D.executes_none };

    ghost takes_more = { FileTakes-more D.executes D.executes_more };

    ghost failures_monotone = { λ s t xs g. Prim.omega (arith, g.failures) };

    fn begin(&mut self) -> Result<(), SinkFailed> {
        if self.failures.is_saturated() {
            return Err(SinkFailed);
        }
        let Ok(file) = open_output(self.system, self.path, self.access) else {
            return self.failures.fail(SinkFailed);
        };
        self.state = State::Open(file);
        Ok(())
    }

    fn put(&mut self, bytes: &[u8]) -> Result<usize, SinkFailed> {
        if self.failures.is_saturated() {
            return Err(SinkFailed);
        }
        let State::Open(file) = &mut self.state else {
            unreachable!()
        };
        match self.system.write(file, bytes) {
            Ok(n) => Ok(n),
            Err(_) => self.failures.fail(SinkFailed),
        }
    }

    fn finish(&mut self) -> Result<(), SinkFailed> {
        if self.failures.is_saturated() {
            return Err(SinkFailed);
        }
        let State::Open(file) = &self.state else {
            unreachable!()
        };
        if self.system.sync(file).is_err() {
            return self.failures.fail(SinkFailed);
        }
        self.state = State::Finished;
        Ok(())
    }
}
