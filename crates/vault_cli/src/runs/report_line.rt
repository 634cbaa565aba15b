//! The one line on standard error that says why a run failed.
ghost use Rattle.std.specs.Prelude.{◌≡◌};
ghost use Rattle.vault_cli.specs.Call.{sink};
ghost use Rattle.vault_cli.specs.runs.Reports.{Reports, line_of};
ghost use Rattle.vault_cli.specs.runs.Status.{status_of};

use crate::runs::status::{Status, status_of};
use crate::writing::write_text;
use arrayvec::ArrayVec;
use vault_core::Fault;
use vault_fault::FAULT_TEXT_LIMIT;
use vault_text::{Sink, Stage};

/// The start of each line.
const PREFIX: &[u8; 7] = b"ERROR! ";

/// The length of the longest line: the prefix, the longest text of a fault, and the line end.
const REPORT_LIMIT: usize = PREFIX.len() + FAULT_TEXT_LIMIT + 1;

/// Writes the fault's line to `err`, `ERROR! ` and the fault's text, and returns the fault's
/// status. A failure of `err` changes nothing else.
pub fn report<E: Sink>(fault: Fault, err: &mut E) -> Status
    requires { E.stage err.old ≡ Stage.Unbegun }
    ensures status { result ≡ status_of fault }
    ensures line { Reports (sink E.Sink err.old err.new) (line_of fault) }
{
    let _ = write_text(line_of(fault).as_slice(), err);
    status_of(fault)
}

/// The fault's whole line, so that the lines of several runs on one stream do not mix.
fn line_of(fault: Fault) -> ArrayVec<u8, REPORT_LIMIT>
    ensures { result.items ≡ line_of fault }
{
    let mut line = ArrayVec::new();
    line.try_extend_from_slice(PREFIX).unwrap();
    line.try_extend_from_slice(fault.text().as_bytes()).unwrap();
    line.push(b'\n');
    line
}
