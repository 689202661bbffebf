//! What is done at each shard, in a visit of all.
//!
//! Tested in `tools/c-library`.

ghost use Rattle.std.specs.Prelude.{◌+◌};
ghost use Rattle.share_visits.specs.Written.{AreWritten, listed};
ghost use Rattle.spec_map.specs.Map.{between};

use crate::near::{Near, nearer_of};
use crate::part::{MapShard, Pages, Part};
use share_shards::work::Visit;

/// Counts the pairs.
#[derive(Drop)]
pub struct Tally {
    /// How many there are, of the shards that were visited.
    pub pairs: u128,
}

impl<M: MapShard> Visit<Part<M>, ()> for Tally {
    ghost use Rattle.share_visits.specs.Visits.{Tallies};

    ghost does = { Tallies M.pairs };

    fn visit(&mut self, shard: usize, value: &mut Part<M>, buffer: &mut [()]) {
        let _ = shard;
        let _ = buffer;
        self.pairs = self.pairs.wrapping_add(value.map.pair_count());
    }
}

/// Finds a pair.
#[derive(Drop)]
pub struct Find {
    pub near: Near,
    /// The nearest pair, of the shards that were visited.
    pub pair: Option<(u64, u64)>,
}

impl<M: MapShard> Visit<Part<M>, ()> for Find {
    ghost use Rattle.share_visits.specs.Visits.{Finds};

    ghost does = { Finds M.pairs };

    fn visit(&mut self, shard: usize, value: &mut Part<M>, buffer: &mut [()]) {
        let _ = shard;
        let _ = buffer;
        self.pair = nearer_of(self.near, self.pair, value.map.nearest(self.near));
    }
}

/// Adds up what is charged.
#[derive(Drop)]
pub struct Charge {
    /// The bytes, of the shards that were visited. They saturate at `u128::MAX`.
    pub bytes: u128,
}

impl<M: MapShard> Visit<Part<M>, ()> for Charge {
    ghost use Rattle.share_visits.specs.Visits.{Charges};

    ghost does = { Charges M.pairs M.charges M.limit };

    fn visit(&mut self, shard: usize, value: &mut Part<M>, buffer: &mut [()]) {
        let _ = shard;
        let _ = buffer;
        self.bytes = self.bytes.saturating_add(value.map.charge());
    }
}

/// Removes a key.
#[derive(Drop)]
pub struct Remove {
    pub key: u64,
}

impl<M: MapShard> Visit<Part<M>, ()> for Remove {
    ghost use Rattle.share_visits.specs.Visits.{Removes};

    ghost does = { Removes M.pairs M.limit };

    fn visit(&mut self, shard: usize, value: &mut Part<M>, buffer: &mut [()]) {
        let _ = shard;
        let _ = buffer;
        value.map.remove_key(self.key);
    }
}

/// Removes all pairs.
#[derive(Drop)]
pub struct Clear;

impl<M: MapShard> Visit<Part<M>, ()> for Clear {
    ghost use Rattle.share_visits.specs.Visits.{Clears};

    ghost does = { Clears M.pairs M.limit };

    fn visit(&mut self, shard: usize, value: &mut Part<M>, buffer: &mut [()]) {
        let _ = shard;
        let _ = buffer;
        value.map.clear();
    }
}

/// Lists pairs of a shard with keys from `start` to `last`.
#[derive(Drop)]
pub struct Page {
    pub start: u64,
    pub last: u64,
    /// From the last of them on, descending.
    pub back: bool,
    /// How many were written.
    pub written: usize,
}

impl<E, M: Pages<E>> Visit<Part<M>, E> for Page {
    ghost use Rattle.share_visits.specs.Visits.{Lists};

    ghost does = { Lists M.pairs M.entry };

    fn visit(&mut self, shard: usize, value: &mut Part<M>, buffer: &mut [E]) {
        let _ = shard;
        self.written = page_of(&value.map, self.start, self.last, self.back, buffer);
    }
}

// The pairs with keys from `start` to `last`, ascending or descending, as many as fit.
fn page_of<E, M: Pages<E>>(map: &M, start: u64, last: u64, back: bool, buffer: &mut [E]) -> usize
    ensures { AreWritten M.entry (listed back (between (M.pairs map.now) start (last + 1)))
        buffer.old result buffer.new }
{
    if back {
        map.page_back(start, last, buffer)
    } else {
        map.page(start, last, buffer)
    }
}
