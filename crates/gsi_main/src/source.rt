ghost use Rattle.std.specs.Prelude.{ℕ, ◌<◌, List, Option, length};
ghost use Rattle.std.specs.Io.{ReadsAtMost};
ghost use Rattle.std.specs.Io.KnownBytes.{ReadConsumes};
ghost use Rattle.gsi_main.specs.Faults.{HasCause};

use n1ql_value::Failed;

/// Where the bytes of a script come from.
pub trait Source {
    /// The bytes left, where the source tells them.
    ghost left: { Self → Option (List ℕ) };

    /// How many reads have failed, up to 2^64 - 1.
    ghost faults: { Self → ℕ };

    /// Reads the next bytes to the beginning of the buffer, and gives their number; 0 is the end of the input.
    ///
    /// # Errors
    ///
    /// `Failed` where the read failed; then nothing was read.
    fn read(&mut self, buf: &mut [u8]) -> Result<usize, Failed>
        requires { 0 < length buf.old }
        ensures within { ReadsAtMost result buf.new }
        ensures bytes { ReadConsumes (left self.old) (left self.new) result buf.new }
        ensures cause { HasCause (faults self.old) (faults self.new) result };
}
