//! The calls of an end in memory, which are to fail by their numbers.

ghost use Rattle.std.specs.Prelude.{◌≡◌, ◌↔◌, IsTrue};
ghost use Rattle.batch_io.specs.Faults.{raised};
ghost use Rattle.batch_io.specs.Memory.{NextFails};

/// Which calls fail, by numbers from 1, and how many calls there were.
#[derive(Drop)]
pub(crate) struct Calls {
    pub(crate) failing: Vec<u32>,
    pub(crate) made: u64,
}

impl Calls {
    pub(crate) fn new(failing: Vec<u32>) -> Calls
        ensures failing { result.failing ≡ failing }
        ensures made { result.made ≡ 0 }
    {
        Calls { failing, made: 0 }
    }

    /// Counts a call, and says whether it is to fail.
    pub(crate) fn next_fails(&mut self) -> bool
        ensures fails { IsTrue result ↔ NextFails self.old.failing.items self.old.made }
        ensures counted { self.new ≡ record self.old { made = raised self.old.made } }
    {
        self.made = self.made.saturating_add(1);
        let number = self.made;
        self.failing.iter().any(|fails| u64::from(*fails) == number)
    }
}
