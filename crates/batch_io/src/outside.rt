//! What a source, a sink and a gate promise to the code above them.

/// What a read gave.
#[derive(Clone, Copy, Debug, PartialEq, Eq)]
pub enum Got {
    /// So many bytes, at the front of the buffer.
    Bytes(usize),
    /// A fault: nothing was taken from the source.
    Failed,
}

/// What a write took.
#[derive(Clone, Copy, Debug, PartialEq, Eq)]
pub enum Took {
    /// So many bytes, from the front of the piece.
    Bytes(usize),
    /// A fault. Nothing was added to a sink that tells its bytes; another may have taken some.
    Failed,
}

/// Where input comes from.
///
/// A contract sees the bytes that are left, where the source tells them, and a count of faults,
/// which rises with each `Failed`, up to the greatest `u64`, and with nothing else.
pub trait Source {
    ghost use Rattle.std.specs.Prelude.{ℕ, List, Option, ◌≡◌, ◌≤◌};
    ghost use Rattle.batch_io.specs.Outside.{Gives};
    ghost use Rattle.batch_io.specs.Faults.{Rose};

    // The bytes that are left, where the source tells them.
    ghost left: { Self → Option (List ℕ) };

    // How often it has failed.
    ghost faults: { Self → ℕ };

    /// Reads the next bytes into the front of `buf`.
    ///
    /// May give fewer than there is room for. `Bytes(0)` for a buffer that isn't empty is the end
    /// of the input. What lies in `buf` behind the bytes given, or after `Failed`, is not said.
    fn read(&mut self, buf: &mut [u8]) -> Got
        ensures bytes { Gives result (left self.old) (left self.new) buf.new }
        ensures later { faults self.old ≤ faults self.new }
        ensures given { (n : ℕ) → result ≡ Got.Bytes n → faults self.new ≡ faults self.old }
        ensures failed { result ≡ Got.Failed → Rose (faults self.old) (faults self.new) };
}

/// Where output goes.
///
/// A contract sees the bytes that were written, where the sink tells them, and a count of faults,
/// which rises with each `Failed`, up to the greatest `u64`, and with nothing else.
pub trait Sink {
    ghost use Rattle.std.specs.Prelude.{ℕ, List, Option, ◌≡◌, ◌≤◌};
    ghost use Rattle.batch_io.specs.Outside.{Takes};
    ghost use Rattle.batch_io.specs.Faults.{Rose};

    // The bytes that were written, where the sink tells them.
    ghost written: { Self → Option (List ℕ) };

    // How often it has failed.
    ghost faults: { Self → ℕ };

    /// Writes the front of `piece`: at least one byte, unless the piece is empty.
    ///
    /// The rest of the piece is the caller's to write again.
    fn write(&mut self, piece: &[u8]) -> Took
        ensures bytes { Takes result (written self.old) (written self.new) piece.now }
        ensures later { faults self.old ≤ faults self.new }
        ensures taken { (n : ℕ) → result ≡ Took.Bytes n → faults self.new ≡ faults self.old }
        ensures failed { result ≡ Took.Failed → Rose (faults self.old) (faults self.new) };
}

/// Where a lane is in a call.
#[derive(Clone, Copy, Debug, PartialEq, Eq)]
pub enum Point {
    /// Its sequence number is drawn.
    Drawn,
    /// The number is chosen around which an opening tests its tags ahead, as a guess.
    Guessed,
    /// The call's replies stand.
    Answered,
}

/// Whom lanes tell of their way through their calls.
///
/// All lanes share one gate, which may hold a lane up. It is told nothing of content, and nothing
/// that it does can change a reply.
pub trait Gate {
    /// Called by the lane `lane` as its call number `call` has come to `point`.
    fn reached(&self, lane: u32, call: u32, point: Point);
}
