//! What a call does while it has the lock of a shard, or of several.

ghost use Rattle.std.specs.Prelude.{◌≡◌};

use crate::rule::Sharded;

/// The work of one hold of one shard, on the value where it is stored in the slot, and on a buffer of the caller.
pub trait Work<T, S: Sharded<T>, E> {
    ghost use Rattle.std.specs.Prelude.{ℕ, List};
    ghost use Rattle.share_parts.specs.Parts.{AreWithin};
    ghost use Rattle.share_rule.specs.inner.Hold.{StepsBy};
    ghost use Rattle.share_shards.specs.Held.{keys_at};
    ghost use Rattle.spec_map.specs.Call.{Operation};
    ghost use Rattle.spec_map.specs.Map.{Pairs};

    // The operations that were made, in order, by work that is done, on a value that was this before.
    ghost made: { Self → S → List (Operation ℕ T T) };

    // One shard has all keys that it is about, where there are so many shards.
    ghost suits: { Self → ℕ → Type 0 };

    // The number of that shard.
    ghost place: { Self → ℕ → ℕ };

    // The work and the buffer before it, the value that it found, and the work and the buffer once it is done.
    ghost does: { Self → List E → S → Self → List E → Type 0 };

    fn work(&mut self, value: &mut S, buffer: &mut [E])
        ensures does { does self.old buffer.old value.old self.new buffer.new }
        ensures goes { (limit : ℕ) (c : Pairs T) → S.content limit value.old c
            → (d : Pairs T) × S.content limit value.new d
            × StepsBy S.same (made self.new value.old) c d }
        ensures within { (count : ℕ) → suits self.old count
            → AreWithin (keys_at (S.shard count) (place self.old count))
            (made self.new value.old) };
}

/// What is done at each shard that is held, in turn.
pub trait Visit<S, E> {
    ghost use Rattle.std.specs.Prelude.{ℕ, List};

    // The visitor and the buffer before, the shard with its value, the visitor and the buffer after, and the value then.
    ghost does: { Self → List E → ℕ → S → Self → List E → S → Type 0 };

    fn visit(&mut self, shard: usize, value: &mut S, buffer: &mut [E])
        ensures does { does self.old buffer.old shard value.old self.new buffer.new value.new };
}
