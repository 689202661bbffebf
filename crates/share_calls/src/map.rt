//! The map itself, to which callers come.
//!
//! Tested in `test_share_shards` and `tools/c-library`.

ghost use Rattle.std.specs.Prelude.{◌≡◌, ◌≤◌, ◌<◌, ◌*◌, ◌/◌, ◌^◌, ℕ, [], IfOk, OnErr};
ghost use Rattle.node_table.specs.Charge.{budget_charge};
ghost use Rattle.share_calls.specs.Charged.{IsCharged};
ghost use Rattle.share_visits.specs.Whole.{IsCount};
ghost use Rattle.share_visits.specs.declared.part.Part.{Part};
ghost use Rattle.share_calls.specs.inner.Filled.{Filled};
ghost use Rattle.share_moments.specs.declared.state.State.{State};

use crate::guard::{Guard, Missed};
use face_typed::typed_congee::Congee;
use node_table::allocator::Budget;
use share_moments::holds::hold_charged;
use share_moments::state::{MapLock, State};
use share_shards::lock::ShardLock;
use share_visits::part::Part;
use spec_map::error::OOMError;
use std::alloc::Global;
use std::marker::Model;
use std::sync::Arc;

// Eight words for each shard, so that each lock has a cache line of its own.
const WORDS: [u64; 512] = [0; 512];

/// A map that threads share. Contracts see which map it is, with the number of its shards, and the limit of each.
#[derive(Drop)]
pub struct Map {
    lock: Arc<MapLock>,
}

impl Model for Map {
    ghost use Rattle.std.specs.Prelude.{◌*◌, ◌<◌, ◌^◌};
    ghost use Rattle.std.specs.Arc.{arc_value};
    ghost use Rattle.share_shards.specs.Lock.{LockView, lock_view_coded};
    ghost use Rattle.share_visits.specs.Whole.{IsCount};

    ghost Value = { LockView };

    ghost coded = { lock_view_coded };

    ghost view = { λ m. arc_value m.lock };

    ghost invariant = { λ m. IsCount (arc_value m.lock).table.slots
        × ((arc_value m.lock).table.slots * (arc_value m.lock).limit < 2 ^ 64) };
}

// The slots of an empty map with so many shards, whose maps have this limit each.
fn slots(alloc: Global, limit: u64, shards: usize) -> Result<Vec<Option<Part<State>>>, OOMError>
    ensures { IfOk result (λ slots.
        Filled (λ (part : Part State). ([] ≡ part.map.map.pairs)
        × ((budget_charge part.map.map.budget).limit ≡ limit)) shards slots.items) }
{
    let mut slots = Vec::with_capacity(alloc, shards)?;
    for _ in 0..shards {
        let map = Congee::new(alloc, Budget::new(limit))?;
        let part = Part {
            map: State { map },
            apart: [0; 8],
        };
        slots.push_reserved(Some(part));
    }
    Ok(slots)
}

impl Map {
    /// A new, empty map under one lock. The stated sizes of the map's nodes are charged to a limit in bytes. `OOMError` if
    /// memory is missing, or the limit is below the size of the first node.
    pub fn new(alloc: Global, limit: u64) -> Result<Map, OOMError>
        ensures shards { IfOk result (λ map. map.table.slots ≡ 1) }
        ensures limit { IfOk result (λ map. map.limit ≡ limit) }
    {
        Map::of(alloc, limit, 1)
    }

    /// A new, empty map in 64 shards, each a map under a lock of its own, for many threads. Keys that differ in their
    /// last eight bits alone are of one shard. The stated sizes of a shard's nodes are charged to a 64th of the limit
    /// in bytes, rounded down. `OOMError` if memory is missing, or that is below the size of a shard's first node.
    pub fn sharded(alloc: Global, limit: u64) -> Result<Map, OOMError>
        ensures shards { IfOk result (λ map. map.table.slots ≡ 64) }
        ensures limit { IfOk result (λ map. map.limit ≡ limit / 64) }
    {
        Map::of(alloc, limit / 64, 64)
    }

    fn of(alloc: Global, limit: u64, shards: usize) -> Result<Map, OOMError>
        requires shards { IsCount shards }
        requires small { shards * limit < 2 ^ 64 }
        ensures shards { IfOk result (λ map. map.table.slots ≡ shards) }
        ensures limit { IfOk result (λ map. map.limit ≡ limit) }
    {
        let made = ShardLock::new(alloc, &WORDS, slots(alloc, limit, shards)?, limit)?;
        match Arc::new(alloc, made) {
            Ok(lock) => Ok(Map { lock }),
            Err(_) => Err(OOMError::new()),
        }
    }

    /// A caller of the map, which has seen nothing. It has a share of the map, which lives as long as it. It waits for
    /// nobody and takes no memory. `OOMError` where there are 2 to the 63 callers.
    pub fn pin(&self) -> Result<Guard, OOMError>
        ensures { IfOk result (λ guard. (guard.table ≡ self.now.table) × (guard.seen ≡ [])) }
    {
        match Arc::try_clone(&self.lock) {
            Ok(lock) => {
                let seat = lock.seat();
                Ok(Guard { lock, seat })
            }
            Err(_) => Err(OOMError::new()),
        }
    }

    /// The sum of the shards' limits in bytes.
    pub fn limit(&self) -> u64
        ensures { result ≡ self.now.table.slots * self.now.limit }
    {
        self.lock.shards() as u64 * self.lock.limit()
    }

    /// The sum in bytes of the stated sizes of the map's nodes, which is within its limit.
    pub fn charged(&self, guard: &mut Guard) -> Result<u128, Missed>
        requires map { guard.old.table ≡ self.now.table }
        ensures made { IfOk result (λ bytes. IsCharged guard.old bytes guard.new) }
        ensures within { IfOk result (λ bytes. bytes ≤ self.now.table.slots * self.now.limit) }
        ensures missed { OnErr result (guard.new ≡ guard.old) }
    {
        let Some(bytes) = hold_charged(&self.lock, &mut guard.seat) else {
            return Err(Missed::Busy);
        };
        Ok(bytes)
    }
}
