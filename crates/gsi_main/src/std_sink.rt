ghost use Rattle.std.specs.Prelude.{◌≡◌, ℕ, ◌<◌, List, Option, IfOk};
ghost use Rattle.std.specs.Io.{WritesAtMost};
ghost use Rattle.gsi_main.specs.Writing.{Writes};

use crate::sink::Sink;
use n1ql_value::Failed;
use std::io::Write;

/// A sink over a writer, as standard output, which is flushed after each write. It tells what its writer tells. It counts each error of the
/// writer, and each write that takes nothing. A flush can fail after a write, so a prefix of the piece may stand in the writer after a failure.
#[derive(Debug, Drop)]
pub struct StdSink<W> {
    writer: W,
    faults: u64,
}

impl<W: Write> StdSink<W> {
    /// A sink over the writer.
    pub fn new(writer: W) -> StdSink<W>
        ensures held { ⟦<StdSink<W> as Sink>⟧.held result ≡ W.contents writer }
        ensures faults { ⟦<StdSink<W> as Sink>⟧.faults result ≡ 0 }
    {
        StdSink { writer, faults: 0 }
    }
}

impl<W: Write> Sink for StdSink<W> {
    ghost held = { λ s. W.contents s.writer };

    ghost faults = { λ s. s.faults };

    fn write(&mut self, piece: &[u8]) -> Result<usize, Failed> {
        let result = write_through(&mut self.writer, piece);
        if result.is_err() {
            self.faults = self.faults.saturating_add(1);
        }
        result
    }
}

/// Writes a prefix of the piece, of at least one byte, and flushes the writer.
fn write_through<W: Write>(writer: &mut W, piece: &[u8]) -> Result<usize, Failed>
    ensures within { WritesAtMost result piece.now }
    ensures moves { IfOk result (λ n. 0 < n) }
    ensures bytes { Writes (W.contents writer.old) (W.contents writer.new) result piece.now }
{
    let Ok(count) = writer.write(piece) else {
        return Err(Failed);
    };
    if count == 0 {
        return Err(Failed);
    }
    if writer.flush().is_err() {
        return Err(Failed);
    }
    Ok(count)
}
