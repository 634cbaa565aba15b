//! Output that is ready to be written.
ghost use Rattle.std.specs.Prelude.{◌≡◌, ◌≢◌, ℕ, take, IsErr, OnOk, OnErr};
ghost use Rattle.vault_text.specs.Failures.{CountsFailure, IsSaturated};
ghost use Rattle.vault_fault.specs.declared.fault.Fault.TheVariants.{Write};
ghost use Rattle.vault_core.specs.Form.{form_of, is_block};
ghost use Rattle.vault_core.specs.Ready.{output_bytes};

use crate::sealing::Sealed;
use std::marker::Model;
use thiserror::Error;
use vault_fault::Fault;
use vault_text::{Sink, SinkFailed, Stage, put_all, write_block, write_envelope};

/// Why output was not fully written.
#[derive(Clone, Copy, Debug, PartialEq, Eq, Error)]
#[error("{}", Fault::from(*self).text())]
pub enum WriteFault {
    Write,
}

impl From<WriteFault> for Fault {
    ghost from_gives = { λ _ of. of ≡ Write };

    fn from(_: WriteFault) -> Self {
        Fault::Write
    }
}

impl From<SinkFailed> for WriteFault {
    fn from(_: SinkFailed) -> Self {
        WriteFault::Write
    }
}

/// The form in which a vault is written.
#[derive(Clone, Copy, Debug)]
pub enum Form<'a> {
    /// An envelope, format 1.1 or 1.2.
    Envelope,
    /// The envelope as a YAML block for a variable, or without a name if it is absent or empty.
    Block(Option<&'a str>),
}

impl<'a> Form<'a> {
    pub(crate) fn is_block(self) -> bool
        ensures { result ≡ is_block (form_of self.entry) }
    {
        matches!(self, Form::Block(_))
    }
}

/// The output to write.
#[derive(Drop)]
pub(crate) enum Output<'a> {
    Plain(&'a [u8]),
    Vault(Sealed<'a>, Form<'a>),
}

impl<'a> Output<'a> {
    /// Writes the output. After a failure the sink has taken a prefix of it.
    #[tactic(auto, unfolding(crate::specs::Sealing::text_in))]
    fn write<K: Sink>(&self, sink: &mut K) -> Result<(), SinkFailed>
        requires { K.stage sink.old ≡ Stage.Begun }
        ensures takes { OnOk result (K.takes sink.old (output_bytes self.now) sink.new) }
        ensures prefix { (n : ℕ) × K.takes sink.old (take n (output_bytes self.now)) sink.new }
        ensures stage { K.stage sink.new ≡ Stage.Begun }
        ensures failed { CountsFailure (K.failures sink.old) (K.failures sink.new) result }
    {
        match self {
            Output::Plain(plain) => put_all(sink, plain),
            Output::Vault(vault, Form::Envelope) => {
                write_envelope(sink, vault.label, vault.salt, &vault.tag, vault.ciphertext)
            }
            Output::Vault(vault, Form::Block(name)) => {
                write_block(
                    sink,
                    *name,
                    vault.label,
                    vault.salt,
                    &vault.tag,
                    vault.ciphertext,
                )
            }
        }
    }
}

/// Output whose text is in the memory that a call borrowed. A vault is put into its form only as it
/// is written.
#[derive(Drop)]
pub struct Ready<'a> {
    pub(crate) output: Output<'a>,
    pub(crate) tried: usize,
}

impl<'a> Model for Ready<'a> {
    ghost use Rattle.vault_core.specs.Ready.{Ready, output_bytes};

    ghost Value = { Ready };

    ghost view = { λ r. record { output = output_bytes r.output; tried = r.tried } };
}

impl<'a> Ready<'a> {
    /// The position in the tried order, counted from 1, of the secret that matched; 0 if none was
    /// tried.
    pub fn tried(&self) -> usize
        ensures { result ≡ self.now.tried }
    {
        self.tried
    }

    /// Begins the sink, puts the output and finishes. After a failure the sink has taken a prefix
    /// of the output and was not finished.
    pub fn write_to<K: Sink>(self, sink: &mut K) -> Result<(), WriteFault>
        requires { K.stage sink.old ≡ Stage.Unbegun }
        ensures written { OnOk result (K.takes sink.old self.entry.output sink.new) }
        ensures finished { OnOk result (K.stage sink.new ≡ Stage.Finished) }
        ensures prefix { (n : ℕ) × K.takes sink.old (take n self.entry.output) sink.new }
        ensures unfinished { OnErr result (K.stage sink.new ≢ Stage.Finished) }
        ensures failed { CountsFailure (K.failures sink.old) (K.failures sink.new) result }
        ensures full { IsSaturated (K.failures sink.old) → IsErr result }
    {
        sink.begin()?;
        self.output.write(sink)?;
        sink.finish()?;
        Ok(())
    }
}
