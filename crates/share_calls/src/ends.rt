//! The calls that find or remove a pair by where it is: at an end of the map, or next to a key.
//!
//! Tested in `tools/c-library`.

ghost use Rattle.std.specs.Prelude.{◌≡◌, ◌≢◌, Err, IfOk, OnErr};
ghost use Rattle.spec_map.specs.Call.{nearest, found, first as first_end, last as last_end};
ghost use Rattle.spec_olc.specs.Runs.{same_number};
ghost use Rattle.share_rule.specs.Known.{MadeCall, MadeCalls};
ghost use Rattle.share_works.specs.Made.{returned};
ghost use Rattle.share_visits.specs.Near.{near_of};
ghost use Rattle.share_works.specs.Ends.{popping};

use crate::guard::{Guard, Missed};
use share_moments::holds::{hold_nearest, hold_pop};
use share_visits::near::Near;

impl Guard {
    /// The pair there.
    #[tactic(auto, using(crate::proofs::Knowing::knows_by))]
    pub fn nearest(&mut self, near: Near) -> Result<Option<(u64, u64)>, Missed>
        ensures made { IfOk result (λ pair. MadeCall same_number self.old
            (returned (nearest (near_of near)) (found pair)) self.new) }
        ensures missed { OnErr result (self.new ≡ self.old) }
        ensures free { result ≢ Err Missed.Oom }
    {
        match hold_nearest(&self.lock, &mut self.seat, near) {
            Some(pair) => Ok(pair),
            None => Err(Missed::Busy),
        }
    }

    /// Removes the pair with the least key, and returns it.
    #[tactic(auto, using(crate::proofs::Knowing::knows_by, share_works::proofs::Popping::popping_made))]
    pub fn pop_first(&mut self) -> Result<Option<(u64, u64)>, Missed>
        ensures made { IfOk result (λ pair. MadeCalls same_number self.old
            (popping first_end pair) self.new) }
        ensures missed { OnErr result (self.new ≡ self.old) }
        ensures free { result ≢ Err Missed.Oom }
    {
        match hold_pop(&self.lock, &mut self.seat, Near::First) {
            Some(pair) => Ok(pair),
            None => Err(Missed::Busy),
        }
    }

    /// Removes the pair with the greatest key, and returns it.
    #[tactic(auto, using(crate::proofs::Knowing::knows_by, share_works::proofs::Popping::popping_made))]
    pub fn pop_last(&mut self) -> Result<Option<(u64, u64)>, Missed>
        ensures made { IfOk result (λ pair. MadeCalls same_number self.old
            (popping last_end pair) self.new) }
        ensures missed { OnErr result (self.new ≡ self.old) }
        ensures free { result ≢ Err Missed.Oom }
    {
        match hold_pop(&self.lock, &mut self.seat, Near::Last) {
            Some(pair) => Ok(pair),
            None => Err(Missed::Busy),
        }
    }
}
