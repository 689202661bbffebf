//! A caller of a shared map. It owns a share of the map, and no call of it waits.
//!
//! Tested in `tools/c-library`.

ghost use Rattle.std.specs.Prelude.{◌≡◌, ◌≢◌, [], IfOk, IsFalse, IsTrue};
ghost use Rattle.spec_olc.specs.Runs.{same_number};
ghost use Rattle.share_rule.specs.Known.{SeenMore};
ghost use Rattle.share_visits.specs.Whole.{shard_of};
ghost use Rattle.share_visits.specs.declared.part.Part.{Part};
ghost use Rattle.share_works.specs.Made.{KnowsBy};
ghost use Rattle.share_moments.specs.declared.state.State.{State};

use crate::map::Map;
use share_moments::state::{MapLock, MapSeat, State, TRIES};
use share_shards::work::Work;
use share_visits::part::{Part, shard_of_key};
use spec_map::error::OOMError;
use std::alloc::Global;
use std::marker::Model;
use std::sync::Arc;

/// Why a call wasn't made. Nothing has changed.
#[derive(Clone, Copy, PartialEq, Eq, Drop)]
pub enum Missed {
    /// A lock that the call needs was taken at each try.
    Busy,
    /// Memory was missing.
    Oom,
}

/// A caller of a shared map. Contracts see which map, the caller's number, and the history that it has seen.
#[derive(Drop)]
pub struct Guard {
    pub(crate) lock: Arc<MapLock>,
    pub(crate) seat: MapSeat,
}

impl Model for Guard {
    ghost use Rattle.std.specs.Prelude.{◌≡◌, ◌*◌, ◌<◌, ◌^◌, ℕ};
    ghost use Rattle.std.specs.Arc.{arc_value};
    ghost use Rattle.spec_olc.specs.Runs.{same_number};
    ghost use Rattle.share_rule.specs.History.{IsLegalHistory};
    ghost use Rattle.share_rule.specs.Known.{Known};
    ghost use Rattle.share_shards.specs.inner.Steps.{IsIdle, known_of, seen_of};
    ghost use Rattle.share_visits.specs.Whole.{IsCount};

    ghost Value = { Known ℕ };

    ghost view = { λ g. known_of g.seat.table_id g.seat.me };

    ghost invariant = { λ g. (g.seat.table_id ≡ (arc_value g.lock).table) × IsIdle g.seat.me
        × IsCount g.seat.table_id.slots × IsLegalHistory same_number (seen_of g.seat.me.0)
        × ((arc_value g.lock).table.slots * (arc_value g.lock).limit < 2 ^ 64) };
}

impl Guard {
    /// The first caller of a new, empty map under one lock, as `Map::new` makes it. It has seen nothing.
    pub fn first(alloc: Global, limit: u64) -> Result<Guard, OOMError>
        ensures { IfOk result (λ guard. (guard.seen ≡ []) × (guard.table.slots ≡ 1)) }
    {
        Map::new(alloc, limit)?.pin()
    }

    /// The first caller of a new, empty map in 64 shards, as `Map::sharded` makes it. It has seen nothing.
    pub fn first_sharded(alloc: Global, limit: u64) -> Result<Guard, OOMError>
        ensures { IfOk result (λ guard. (guard.seen ≡ []) × (guard.table.slots ≡ 64)) }
    {
        Map::sharded(alloc, limit)?.pin()
    }

    /// One more caller of the map. Both have then seen one history, which begins with what this one had seen.
    /// `OOMError` where there are 2 to the 63 callers.
    #[tactic(auto, using(crate::proofs::Knowing::seen_same, crate::proofs::Knowing::seen_more))]
    pub fn another(&mut self) -> Result<Guard, OOMError>
        ensures other { IfOk result (λ other. (other.table ≡ self.old.table)
            × (other.seen ≡ self.new.seen)) }
        ensures seen { SeenMore same_number self.old self.new }
    {
        let Ok(lock) = Arc::try_clone(&self.lock) else {
            return Err(OOMError::new());
        };
        let mut seat = lock.seat();
        lock.meet(&mut self.seat, &mut seat);
        Ok(Guard { lock, seat })
    }

    /// Two callers of one map meet. Both have then seen one legal history, which begins with what each had seen.
    #[tactic(auto, using(crate::proofs::Knowing::seen_more))]
    pub fn meet(&mut self, other: &mut Guard)
        requires map { other.old.table ≡ self.old.table }
        ensures first { SeenMore same_number self.old self.new }
        ensures second { SeenMore same_number other.old other.new }
        ensures one { self.new.seen ≡ other.new.seen }
        ensures differ { self.old.caller ≢ other.old.caller }
    {
        self.lock.meet(&mut self.seat, &mut other.seat);
    }

    /// Does this work in one hold of the lock of the key's shard. `false` if the lock was taken at each try, and changes
    /// nothing.
    #[tactic(auto, using(crate::proofs::Knowing::knows_by))]
    pub(crate) fn make<W: Work<u64, Part<State>, ()>>(&mut self, key: u64, work: &mut W) -> bool
        requires suits { W.suits work.old self.old.table.slots }
        requires place { W.place work.old self.old.table.slots ≡ shard_of self.old.table.slots key }
        ensures made { IsTrue result → (found : Part State)
            × KnowsBy (W.made work.new found) self.old self.new
            × W.does work.old [] found work.new [] }
        ensures missed { IsFalse result → (self.new ≡ self.old) × (work.new ≡ work.old) }
    {
        let shard = shard_of_key(key, self.lock.shards());
        self.lock
            .hold::<(), W>(shard, &mut self.seat, work, &mut [], TRIES)
    }
}
