// Which calls of an object fail, by their numbers.
ghost use Rattle.std.specs.Prelude.{◌≡◌, ◌↔◌, IsTrue, Contains};
ghost use Rattle.outside.specs.Causes.{next_count};

use crate::CallList;

/// The numbers of the calls that fail, and how many calls were made, at most 2^64 - 1.
#[derive(Drop)]
pub struct FailingCalls {
    pub fails: CallList,
    pub made: u64,
}

impl FailingCalls {
    pub fn new(fails: CallList) -> Self
        ensures fails { result.fails ≡ fails }
        ensures made { result.made ≡ 0 }
    {
        FailingCalls { fails, made: 0 }
    }

    /// Counts a call that begins, and says whether it fails.
    pub fn next_fails(&mut self) -> bool
        ensures fails { IsTrue result ↔ Contains self.old.fails self.old.made }
        ensures made { self.new ≡ record self.old { made = next_count self.old.made } }
    {
        let number = self.made;
        self.made = number.saturating_add(1);
        self.fails.contains(number)
    }
}
