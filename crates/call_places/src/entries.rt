//! Places of items, the steps that were taken there, and the stamps that give them one order.

ghost use Rattle.std.specs.Prelude.{◌≡◌};

/// Which item of which call of which lane, each counted from 0.
#[derive(Clone, Copy, Debug, PartialEq, Eq)]
pub struct Place {
    pub lane: u32,
    pub call: u32,
    pub item: u32,
}

/// What a call does to the name of a context that comes and goes.
#[derive(Clone, Copy, Debug, PartialEq, Eq)]
pub enum Act {
    /// From here on the name stands for its context.
    Add,
    /// From here on the name stands for nothing.
    Retire,
    /// The name is looked up for a call.
    Look,
}

/// What became of an item, or of a name.
#[derive(Clone, Copy, Debug, PartialEq, Eq)]
pub enum Step {
    /// A message was sealed.
    Sealed,
    /// A seal was refused, since the sequence number stood at its limit.
    SealLimit,
    /// A ciphertext was opened.
    Opened,
    /// A ciphertext's tag did not hold.
    Failed,
    /// A ciphertext whose tag holds was refused, since the sequence number stood at its limit.
    OpenLimit,
    /// A name was added, retired or looked up; `live` tells whether it stood for its context before.
    Note { name: u32, act: Act, live: bool },
}

impl Step {
    ghost use Rattle.call_places.specs.Entries.{advances};

    /// Whether the step raises the sequence number: what IncrementSeq does after each seal and
    /// each open that succeeds (RFC 9180, 5.2).
    pub fn advances(self) -> bool
        ensures { result ≡ advances self }
    {
        matches!(self, Step::Sealed | Step::Opened)
    }
}

/// A place, its stamp, and the step that was taken there.
///
/// The stamps of a batch are from one counter, so they give the entries of several lists one order.
#[derive(Clone, Copy, Debug, PartialEq, Eq)]
pub struct Entry {
    pub place: Place,
    pub stamp: u64,
    pub step: Step,
}

/// A place in a journal, with its stamp.
#[derive(Clone, Copy, Debug, PartialEq, Eq)]
pub struct Mark {
    pub place: Place,
    pub stamp: u64,
}

impl Entry {
    ghost use Rattle.call_places.specs.Entries.{mark_of};

    /// What a journal tells of the entry: its place and its stamp.
    pub fn mark(self) -> Mark
        ensures { result ≡ mark_of self }
    {
        Mark {
            place: self.place,
            stamp: self.stamp,
        }
    }
}
