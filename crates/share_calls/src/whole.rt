//! The calls on the whole map: its counts, and its removal.
//!
//! Tested in `tools/c-library`.

ghost use Rattle.std.specs.Prelude.{◌≡◌, ◌≢◌, ◌≤◌, ℕ, Err, IfOk, OnErr, OnOk};
ghost use Rattle.spec_map.specs.Call.{count as count_call, counted, is_empty as is_empty_call, tested};
ghost use Rattle.spec_map.specs.Map.{Pairs};
ghost use Rattle.spec_olc.specs.Runs.{same_number};
ghost use Rattle.share_calls.specs.Charged.{IsCharged};
ghost use Rattle.share_rule.specs.Known.{MadeCall, MadeCalls};
ghost use Rattle.share_works.specs.Made.{returned, clearing};

use crate::guard::{Guard, Missed};
use share_moments::holds::{hold_charged, hold_clear, hold_count, hold_is_empty};

impl Guard {
    /// How many pairs there are: 2 to the 64 at most.
    #[tactic(auto, using(crate::proofs::Knowing::knows_by))]
    pub fn count(&mut self) -> Result<u128, Missed>
        ensures made { IfOk result (λ count. MadeCall same_number self.old
            (returned count_call (counted count)) self.new) }
        ensures missed { OnErr result (self.new ≡ self.old) }
        ensures free { result ≢ Err Missed.Oom }
    {
        match hold_count(&self.lock, &mut self.seat) {
            Some(pairs) => Ok(pairs),
            None => Err(Missed::Busy),
        }
    }

    /// Whether there is no pair.
    #[tactic(auto, using(crate::proofs::Knowing::knows_by))]
    pub fn is_empty(&mut self) -> Result<bool, Missed>
        ensures made { IfOk result (λ empty. MadeCall same_number self.old
            (returned is_empty_call (tested empty)) self.new) }
        ensures missed { OnErr result (self.new ≡ self.old) }
        ensures free { result ≢ Err Missed.Oom }
    {
        match hold_is_empty(&self.lock, &mut self.seat) {
            Some(empty) => Ok(empty),
            None => Err(Missed::Busy),
        }
    }

    /// The sum in bytes of the stated sizes of the map's nodes, and the limit, which the sum is within. The sum is of the
    /// trees of one moment, one for each shard, whose pairs were counted then.
    pub fn usage(&mut self) -> Result<(u128, u64), Missed>
        ensures made { IfOk result (λ usage. IsCharged self.old usage.0 self.new) }
        ensures within { IfOk result (λ usage. usage.0 ≤ usage.1) }
        ensures missed { OnErr result (self.new ≡ self.old) }
        ensures free { result ≢ Err Missed.Oom }
    {
        let Some(bytes) = hold_charged(&self.lock, &mut self.seat) else {
            return Err(Missed::Busy);
        };
        Ok((bytes, self.lock.shards() as u64 * self.lock.limit()))
    }

    /// Removes all pairs. Of the nodes the root stays.
    #[tactic(auto, using(crate::proofs::Knowing::knows_by))]
    pub fn clear(&mut self) -> Result<(), Missed>
        ensures made { OnOk result ((pairs : Pairs ℕ)
            × MadeCalls same_number self.old (clearing pairs) self.new) }
        ensures missed { OnErr result (self.new ≡ self.old) }
        ensures free { result ≢ Err Missed.Oom }
    {
        if !hold_clear(&self.lock, &mut self.seat) {
            return Err(Missed::Busy);
        }
        Ok(())
    }
}
