//! What lies in the slot of a shard: a map of its own.
//!
//! Tested in `tools/c-library`.

ghost use Rattle.std.specs.Prelude.{◌≡◌, ◌≤◌, ◌+◌, ◌<◌, ◌^◌, [], length, reverse};
ghost use Rattle.share_visits.specs.Near.{near_of};
ghost use Rattle.share_visits.specs.Whole.{IsCount, shard_of};
ghost use Rattle.share_visits.specs.Written.{AreWritten};
ghost use Rattle.spec_map.specs.Map.{between, without};
ghost use Rattle.spec_map.specs.Near.{pair_near};

use crate::near::Near;
use share_shards::lock::{LockSeat, ShardLock};
use share_shards::rule::Sharded;

/// A map of numbers that is to be a part of another, as visits see it.
pub trait MapShard {
    ghost use Rattle.std.specs.Prelude.{ℕ};
    ghost use Rattle.spec_map.specs.Map.{Pairs};

    // Its pairs.
    ghost pairs: { Self → Pairs ℕ };

    // It is charged so many bytes.
    ghost charges: { Self → ℕ → Type 0 };

    // The bytes that it may be charged at most.
    ghost limit: { Self → ℕ };

    /// How many pairs there are.
    fn pair_count(&self) -> u128
        ensures count { result ≡ length (pairs self.now) }
        ensures few { length (pairs self.now) ≤ 2 ^ 64 };

    /// The pair there.
    fn nearest(&self, near: Near) -> Option<(u64, u64)>
        ensures { result ≡ pair_near (pairs self.now) (near_of near) };

    /// What it is charged, in bytes.
    fn charge(&self) -> u128
        ensures charge { charges self.now result }
        ensures within { result ≤ limit self.now };

    /// Removes the pair at the key, if there is one.
    fn remove_key(&mut self, key: u64)
        ensures pairs { pairs self.new ≡ without (pairs self.old) key }
        ensures limit { limit self.new ≡ limit self.old };

    /// Removes all pairs.
    fn clear(&mut self)
        ensures pairs { pairs self.new ≡ [] }
        ensures limit { limit self.new ≡ limit self.old };
}

/// A map that is a shard, whose pairs are listed as entries of a buffer.
pub trait Pages<E>: MapShard {
    ghost use Rattle.std.specs.Prelude.{ℕ};

    // The entry of a key and a value.
    ghost entry: { ℕ → ℕ → E };

    /// The entry of a pair.
    fn entry_of(key: u64, value: u64) -> E
        ensures { result ≡ entry key value };

    /// Writes the first pairs with keys from `start` to `last` to the buffer, ascending, as many as fit.
    fn page(&self, start: u64, last: u64, buffer: &mut [E]) -> usize
        ensures { AreWritten entry (between (Self.pairs self.now) start (last + 1))
            buffer.old result buffer.new };

    /// Writes the last of them, descending.
    fn page_back(&self, start: u64, last: u64, buffer: &mut [E]) -> usize
        ensures { AreWritten entry (reverse (between (Self.pairs self.now) start (last + 1)))
            buffer.old result buffer.new };
}

/// A shard's map. The words behind it keep two shards' maps off one cache line.
#[derive(Drop)]
pub struct Part<M> {
    pub map: M,
    pub apart: [u64; 8],
}

impl<M: MapShard> Sharded<u64> for Part<M> {
    ghost use Rattle.std.specs.Prelude.{◌≡◌, ◌==◌};
    ghost use Rattle.share_visits.specs.Whole.{shard_of};

    ghost same = { λ a b. a == b };

    ghost content = { λ limit part m. (m ≡ M.pairs part.map) × (M.limit part.map ≡ limit) };

    ghost shard = { shard_of };
}

/// The lock of a map in shards.
pub type PartLock<M> = ShardLock<u64, Part<M>>;

/// A seat at it.
pub type PartSeat<M> = LockSeat<u64, Part<M>>;

/// The shard of a key, where there are so many.
pub fn shard_of_key(key: u64, shards: usize) -> usize
    requires { IsCount shards }
    ensures shard { result ≡ shard_of shards key }
    ensures within { result < shards }
{
    if shards == 1 {
        0
    } else {
        (key / 256 % 64) as usize
    }
}
