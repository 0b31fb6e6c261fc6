// What a program reads from and writes to.
ghost use Rattle.std.specs.Prelude.{ℕ, List, ◌<◌, ◌≤◌, ◌≡◌, length, min, max, IfOk};
ghost use Rattle.std.specs.declared.option.Option.{Option};
ghost use Rattle.std.specs.Io.{ReadsAtMost};
ghost use Rattle.std.specs.Io.KnownBytes.{ReadConsumes, WriteAppends};
ghost use Rattle.pk_io.specs.Causes.{HasCause};
ghost use Rattle.pk_io.specs.Turns.{turns_after};

/// A device failed, and has counted it.
#[derive(Clone, Copy)]
pub struct Failed;

pub trait Source {
    /// The bytes that are left, where the source tells them.
    ghost left: { Self → Option (List ℕ) };

    /// How many reads have given a byte.
    ghost turns: { Self → ℕ };

    /// The length of the shortest buffer that it was lent.
    ghost shortest: { Self → ℕ };

    /// The length of the longest buffer that it was lent.
    ghost longest: { Self → ℕ };

    /// How often it has failed. The count may stop at 2^64 - 1.
    ghost faults: { Self → ℕ };

    /// The next bytes that are left. `Ok(0)` is the end of the input.
    fn read(&mut self, buf: &mut [u8]) -> Result<usize, Failed>
        requires { 0 < length buf.old }
        ensures count { ReadsAtMost result buf.new }
        ensures bytes { ReadConsumes (left self.old) (left self.new) result buf.new }
        ensures turn { turns self.new ≡ turns_after (turns self.old) result }
        ensures shortest_buffer { shortest self.new ≡ min (shortest self.old) (length buf.old) }
        ensures longest_buffer { longest self.new ≡ max (longest self.old) (length buf.old) }
        ensures cause { HasCause (faults self.old) (faults self.new) result };
}

pub trait Sink {
    /// The bytes that were written, where the sink tells them.
    ghost written: { Self → Option (List ℕ) };

    /// How many writes have taken a byte.
    ghost turns: { Self → ℕ };

    /// How often it has failed. The count may stop at 2^64 - 1.
    ghost faults: { Self → ℕ };

    /// Writes the first bytes of the piece, one at least.
    fn write(&mut self, piece: &[u8]) -> Result<usize, Failed>
        requires { 0 < length piece.now }
        ensures some { IfOk result (λ n. 0 < n) }
        ensures count { IfOk result (λ n. n ≤ length piece.now) }
        ensures bytes { WriteAppends (written self.old) (written self.new) result piece.now }
        ensures turn { turns self.new ≡ turns_after (turns self.old) result }
        ensures cause { HasCause (faults self.old) (faults self.new) result };
}
