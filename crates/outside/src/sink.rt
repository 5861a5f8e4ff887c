// Where bytes are written.
ghost use Rattle.std.specs.Prelude.{◌≡◌, ◌≤◌, ◌<◌, ◌++◌, List, ℕ, Bool, length, take, IfOk, OnOk, OnErr, IsTrue};
ghost use Rattle.outside.specs.Causes.{Rose};

use crate::Failed;

/// Takes bytes in order, and counts its faults.
pub trait Sink {
    /// Whether it tells what was written.
    ghost tells: { Self → Bool };

    /// The bytes written so far, where it tells them.
    ghost written: { Self → List ℕ };

    /// How many writes have failed. The count never falls, and stays at 2^64 - 1, its last value.
    ghost faults: { Self → ℕ };

    /// Takes some bytes from the front, at least one. A sink that can take none fails.
    fn write(&mut self, bytes: &[u8]) -> Result<usize, Failed>
        requires { 0 < length bytes.now }
        ensures some { IfOk result (λ n. 0 < n) }
        ensures bound { IfOk result (λ n. n ≤ length bytes.now) }
        ensures appended { IfOk result (λ n. IsTrue (tells self.old)
            → written self.new ≡ written self.old ++ take n bytes.now) }
        ensures failed { OnErr result (IsTrue (tells self.old)
            → written self.new ≡ written self.old) }
        ensures quiet { OnOk result (faults self.new ≡ faults self.old) }
        ensures cause { OnErr result (Rose (faults self.old) (faults self.new)) }
        ensures later { faults self.old ≤ faults self.new }
        ensures telling { IsTrue (tells self.old) → IsTrue (tells self.new) };
}
