//! What a call does while it has the lock.
//!
//! Tested in `tools/c-library`.

ghost use Rattle.std.specs.Prelude.{◌≡◌};

use crate::rule::Protected;

/// The work of one hold, on the value where it is stored under the lock, and on a buffer of the caller.
pub trait Work<T, N, S: Protected<T, N>, E> {
    ghost use Rattle.std.specs.Prelude.{ℕ, List};
    ghost use Rattle.spec_map.specs.Call.{Operation};
    ghost use Rattle.spec_map.specs.Map.{Pairs};
    ghost use Rattle.share_rule.specs.inner.Hold.{StepsBy};

    // The operations that were made, in order, by work that is done, on a value that was this before.
    ghost made: { Self → S → List (Operation ℕ T T) };

    // The work and the buffer before it, the value that it found, and the work and the buffer once it is done.
    ghost does: { Self → List E → S → Self → List E → Type 0 };

    fn work(&mut self, value: &mut S, buffer: &mut [E])
        ensures does { does self.old buffer.old value.old self.new buffer.new }
        ensures goes { (c : Pairs T) → S.content value.old c → (d : Pairs T) × S.content value.new d
            × StepsBy S.same (made self.new value.old) c d }
        ensures places { (k : ℕ) → S.place value.new k ≡ S.place value.old k };
}
