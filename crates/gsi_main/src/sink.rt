ghost use Rattle.std.specs.Prelude.{ℕ, ◌<◌, List, Option, length, IfOk};
ghost use Rattle.std.specs.Io.{WritesAtMost};
ghost use Rattle.gsi_main.specs.Faults.{HasCause};
ghost use Rattle.gsi_main.specs.Writing.{Writes};

use n1ql_value::Failed;

/// Where the bytes of a report go.
pub trait Sink {
    /// The bytes held, where the sink tells them.
    ghost held: { Self → Option (List ℕ) };

    /// How many writes have failed, up to 2^64 - 1.
    ghost faults: { Self → ℕ };

    /// Takes a prefix of the piece, of at least one byte, and gives its length.
    ///
    /// # Errors
    ///
    /// `Failed` where the write failed; then a prefix of the piece may have been taken all the same.
    fn write(&mut self, piece: &[u8]) -> Result<usize, Failed>
        requires { 0 < length piece.now }
        ensures within { WritesAtMost result piece.now }
        ensures moves { IfOk result (λ n. 0 < n) }
        ensures bytes { Writes (held self.old) (held self.new) result piece.now }
        ensures cause { HasCause (faults self.old) (faults self.new) result };
}
