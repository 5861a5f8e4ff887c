// Files that are read by name.
ghost use Rattle.std.specs.Prelude.{◌≡◌, ◌≤◌, ◌<◌, ◌↔◌, ◌++◌, [], List, ℕ, Bool, Some, length, take, IfOk, OnOk, OnErr, IsTrue};
ghost use Rattle.outside.specs.Causes.{Rose};
ghost use Rattle.outside.specs.Seen.{Seen};

use crate::Failed;

/// Files that are read by name, one of which may be current. They count the faults of each name, so
/// that a call can be seen to fail only where it counted one.
pub trait Files {
    /// Whether they tell what the files contain, and the bytes of the file of each name, if there is
    /// one. These are meant where the files tell them.
    ghost seen: { Self → Seen };

    /// Whether a file is current.
    ghost has_current: { Self → Bool };

    /// Whether the current file goes by a name.
    ghost goes_by: { Self → List ℕ → Type 0 };

    /// What is left of the current file, where the files tell it.
    ghost left: { Self → List ℕ };

    /// How many calls have failed for a name. No count falls, and each stays at 2^64 - 1, its last value.
    ghost faults: { Self → List ℕ → ℕ };

    /// Makes the file of a name current, from its start on. A file that is missing is a fault. After a
    /// fault no file need be current.
    fn open_file(&mut self, name: &str) -> Result<(), Failed>
        ensures current { OnOk result (IsTrue (has_current self.new)) }
        ensures named { OnOk result (goes_by self.new name.now) }
        ensures all_left { OnOk result (IsTrue (seen self.old).tells
            → (seen self.old).contents name.now ≡ Some (left self.new)) }
        ensures quiet { OnOk result ((other : List ℕ) → faults self.new other ≡ faults self.old other) }
        ensures cause { OnErr result (Rose (faults self.old name.now) (faults self.new name.now)) }

        ensures later { (other : List ℕ) → faults self.old other ≤ faults self.new other }
        ensures same { seen self.new ≡ seen self.old };

    /// Reads some of the bytes that are left to the front of `buf`, and none only where none is left.
    fn read(&mut self, buf: &mut [u8]) -> Result<usize, Failed>
        requires current { IsTrue (has_current self.old) }
        requires room { 0 < length buf.old }
        ensures bound { IfOk result (λ n. n ≤ length buf.new) }
        ensures bytes { IfOk result (λ n. IsTrue (seen self.old).tells
            → left self.old ≡ take n buf.new ++ left self.new) }
        ensures end { IfOk result (λ n. IsTrue (seen self.old).tells → (n ≡ 0) ↔ (left self.old ≡ [])) }
        ensures quiet { OnOk result ((other : List ℕ) → faults self.new other ≡ faults self.old other) }
        ensures cause { OnErr result ((name : List ℕ) → goes_by self.old name
            → Rose (faults self.old name) (faults self.new name)) }

        ensures current { IsTrue (has_current self.new) }
        ensures named { (name : List ℕ) → goes_by self.old name ↔ goes_by self.new name }
        ensures later { (other : List ℕ) → faults self.old other ≤ faults self.new other }
        ensures same { seen self.new ≡ seen self.old };
}
