//! What gives bytes and what takes them. Each counts its faults, so that a caller can tell a fault of
//! the outside from an answer of its own.

ghost use Rattle.std.specs.Prelude.{◌≡◌, ℕ, ◌<◌, ◌≤◌, List, length, IfOk, OnOk, OnErr};
ghost use Rattle.std.specs.Io.{ReadsAtMost, WritesAtMost};
ghost use Rattle.std.specs.Io.KnownBytes.{Keeps, ReadConsumes, WriteAppends};
ghost use Rattle.zx_io.specs.Causes.{Rose};
ghost use Rattle.std.specs.declared.option.Option.{Option};

/// A read, a write or a flush failed. What was called counted it.
#[derive(Debug, Clone, Copy, PartialEq, Eq)]
pub struct Failed;

/// A place that bytes come from.
pub trait Source {
    // The bytes that are left, where they are told.
    ghost left: { Self → Option (List ℕ) };

    // How many calls failed. It never falls, and stands still at its end.
    ghost faults: { Self → ℕ };

    /// Moves some of the bytes left into the start of `buf`, and answers how many. `Ok(0)` is the end.
    fn read(&mut self, buf: &mut [u8]) -> Result<usize, Failed>
        requires { 0 < length buf.old }
        ensures bound { ReadsAtMost result buf.new }
        ensures bytes { ReadConsumes (left self.old) (left self.new) result buf.new }
        ensures ok { OnOk result (faults self.new ≡ faults self.old) }
        ensures failed { OnErr result (Rose (faults self.old) (faults self.new)) }
        ensures later { faults self.old ≤ faults self.new };
}

/// A place that bytes go to.
pub trait Sink {
    // The bytes that were taken, where they are told.
    ghost taken: { Self → Option (List ℕ) };

    // How many calls failed. It never falls, and stands still at its end.
    ghost faults: { Self → ℕ };

    // How many bytes were taken that no flush passed on, where that is told.
    ghost pending: { Self → ℕ } = { λ _. 0 };

    /// Takes some bytes from the start of `piece`, at least one, and answers how many.
    fn write(&mut self, piece: &[u8]) -> Result<usize, Failed>
        requires { 0 < length piece.now }
        ensures bound { WritesAtMost result piece.now }
        ensures some { IfOk result (λ count. 1 ≤ count) }
        ensures bytes { WriteAppends (taken self.old) (taken self.new) result piece.now }
        ensures ok { OnOk result (faults self.new ≡ faults self.old) }
        ensures failed { OnErr result (Rose (faults self.old) (faults self.new)) }
        ensures later { faults self.old ≤ faults self.new };

    /// Passes on what was taken.
    fn flush(&mut self) -> Result<(), Failed>
        ensures bytes { Keeps (taken self.old) (taken self.new) }
        ensures passed_on { OnOk result (pending self.new ≡ 0) }
        ensures ok { OnOk result (faults self.new ≡ faults self.old) }
        ensures failed { OnErr result (Rose (faults self.old) (faults self.new)) }
        ensures later { faults self.old ≤ faults self.new };
}
