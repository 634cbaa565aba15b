//! Writing the program's own texts: help, a mistake, or why a run failed.
ghost use Rattle.std.specs.Prelude.{◌≡◌, OnErr, OnOk};
ghost use Rattle.vault_cli.specs.Call.{sink};
ghost use Rattle.vault_cli.specs.runs.OutputEnd.{to_sink};

use vault_text::{Sink, SinkFailed, Stage, put_all};

/// Begins the sink, puts the text at once and finishes.
pub(crate) fn write_text<K: Sink>(text: &[u8], out: &mut K) -> Result<(), SinkFailed>
    requires { K.stage out.old ≡ Stage.Unbegun }
    ensures received { OnOk result ((to_sink (sink K.Sink out.old out.new)).received text.now) }
    ensures cut { OnErr result ((to_sink (sink K.Sink out.old out.new)).cut text.now) }
{
    out.begin()?;
    put_all(out, text)?;
    out.finish()
}
