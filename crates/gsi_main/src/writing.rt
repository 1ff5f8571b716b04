ghost use Rattle.std.specs.Prelude.{OnOk, OnErr};
ghost use Rattle.gsi_main.specs.Writing.{WroteWhole, WrotePart};

use crate::sink::Sink;
use n1ql_value::Failed;

/// Writes the report to its end, or until a write fails.
pub(crate) fn write_report<K: Sink>(report: &[u8], sink: &mut K) -> Result<(), Failed>
    ensures whole { OnOk result (WroteWhole (K.held sink.old) (K.held sink.new)
        (K.faults sink.old) (K.faults sink.new) report.now) }
    ensures part { OnErr result (WrotePart (K.held sink.old) (K.held sink.new)
        (K.faults sink.old) (K.faults sink.new) report.now) }
{
    let mut done = 0;
    'pieces: while done < report.len() {
        let (_, rest) = report.split_at(done);
        done += sink.write(rest)?;
    }
    Ok(())
}
