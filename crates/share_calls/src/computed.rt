//! The calls that put a new value together from the current one.
//!
//! Tested in `tools/c-library`.

ghost use Rattle.std.specs.Prelude.{◌≡◌, IfOk, OnErr, OnOk, unwrap_or};
ghost use Rattle.node_table.specs.Charge.{budget_charge};
ghost use Rattle.spec_map.specs.Map.{lookup, put};
ghost use Rattle.spec_olc.specs.Runs.{same_number};
ghost use Rattle.share_rule.specs.Known.{MadeCall};
ghost use Rattle.share_calls.specs.Computed.{computed_from, sum_with};

use crate::guard::{Guard, Missed};
use face_typed::typed_congee::Congee;
use node_table::allocator::Budget;
use share_moments::state::State;
use share_shards::work::Work;
use share_visits::part::Part;
use spec_map::error::OOMError;

#[derive(Drop)]
struct Add {
    key: u64,
    number: u64,
    put: Result<Option<u64>, OOMError>,
}

impl Work<u64, Part<State>, ()> for Add {
    ghost use Rattle.std.specs.Prelude.{◌≡◌};
    ghost use Rattle.share_calls.specs.Computed.{sum_with};
    ghost use Rattle.share_visits.specs.Whole.{shard_of};
    ghost use Rattle.share_calls.specs.inner.Attempts.{computation};

    ghost made = { λ w _. computation w.key (λ before. sum_with before w.number) w.put };

    ghost suits = { λ _ _. Unit {0} };

    ghost place = { λ w shards. shard_of shards w.key };

    ghost does = { λ old _ _ new _. (new.key ≡ old.key) × (new.number ≡ old.number) };

    #[tactic(auto, using(crate::proofs::Computing::computation_goes, crate::proofs::Places::computation_within))]
    fn work(&mut self, value: &mut Part<State>, buffer: &mut [()]) {
        let _ = buffer;
        self.put = add_to(&mut value.map.map, self.key, self.number);
    }
}

#[derive(Drop)]
struct GetOrInsert {
    key: u64,
    value: u64,
    put: Result<Option<u64>, OOMError>,
}

impl Work<u64, Part<State>, ()> for GetOrInsert {
    ghost use Rattle.std.specs.Prelude.{◌≡◌, unwrap_or};
    ghost use Rattle.share_visits.specs.Whole.{shard_of};
    ghost use Rattle.share_calls.specs.inner.Attempts.{computation};

    ghost made = { λ w _. computation w.key (λ before. unwrap_or before w.value) w.put };

    ghost suits = { λ _ _. Unit {0} };

    ghost place = { λ w shards. shard_of shards w.key };

    ghost does = { λ old _ _ new _. (new.key ≡ old.key) × (new.value ≡ old.value) };

    #[tactic(auto, using(crate::proofs::Computing::computation_goes, crate::proofs::Places::computation_within))]
    fn work(&mut self, value: &mut Part<State>, buffer: &mut [()]) {
        let _ = buffer;
        self.put = put_if_absent(&mut value.map.map, self.key, self.value);
    }
}

// Stores the sum of the key's value and the number, or the number at a new key. Returns the previous value.
#[tactic(auto, using(share_moments::proofs::Limits::same_limit))]
fn add_to(
    map: &mut Congee<u64, u64, Budget>,
    key: u64,
    number: u64,
) -> Result<Option<u64>, OOMError>
    ensures before { IfOk result (λ before. before ≡ lookup map.old.pairs key) }
    ensures ok { OnOk result
        (map.new.pairs ≡ put map.old.pairs key (sum_with (lookup map.old.pairs key) number)) }
    ensures err { OnErr result (map.new.pairs ≡ map.old.pairs) }
    ensures limit { (budget_charge map.new.budget).limit ≡ (budget_charge map.old.budget).limit }
{
    let mut sum = |current: Option<u64>| -> u64 {
        match current {
            Some(current) => current.wrapping_add(number),
            None => number,
        }
    };
    map.compute_or_insert(key, &mut sum)
}

// Stores the value at a new key, and the current value again at a present one. Returns the previous value.
#[tactic(auto, using(share_moments::proofs::Limits::same_limit))]
fn put_if_absent(
    map: &mut Congee<u64, u64, Budget>,
    key: u64,
    value: u64,
) -> Result<Option<u64>, OOMError>
    ensures before { IfOk result (λ before. before ≡ lookup map.old.pairs key) }
    ensures ok { OnOk result
        (map.new.pairs ≡ put map.old.pairs key (unwrap_or (lookup map.old.pairs key) value)) }
    ensures err { OnErr result (map.new.pairs ≡ map.old.pairs) }
    ensures limit { (budget_charge map.new.budget).limit ≡ (budget_charge map.old.budget).limit }
{
    let mut keep = |current: Option<u64>| -> u64 { current.unwrap_or(value) };
    map.compute_or_insert(key, &mut keep)
}

impl Guard {
    /// Adds the number to the key's value, modulo 2 to the 64. A new key gets the number as its value. Returns the
    /// previous value. `Oom` comes only for a new key.
    pub fn add(&mut self, key: u64, number: u64) -> Result<Option<u64>, Missed>
        ensures made { IfOk result (λ before. MadeCall same_number self.old
            (computed_from key before (sum_with before number)) self.new) }
        ensures missed { OnErr result (self.new ≡ self.old) }
    {
        let mut work = Add {
            key,
            number,
            put: Ok(None),
        };
        if !self.make(key, &mut work) {
            return Err(Missed::Busy);
        }
        match work.put {
            Ok(before) => Ok(before),
            Err(_) => Err(Missed::Oom),
        }
    }

    /// Gives the key the value if it is absent, and stores a present value again. Returns the value that was present.
    /// `Oom` comes only for a new key.
    pub fn get_or_insert(&mut self, key: u64, value: u64) -> Result<Option<u64>, Missed>
        ensures made { IfOk result (λ found. MadeCall same_number self.old
            (computed_from key found (unwrap_or found value)) self.new) }
        ensures missed { OnErr result (self.new ≡ self.old) }
    {
        let mut work = GetOrInsert {
            key,
            value,
            put: Ok(None),
        };
        if !self.make(key, &mut work) {
            return Err(Missed::Busy);
        }
        match work.put {
            Ok(before) => Ok(before),
            Err(_) => Err(Missed::Oom),
        }
    }
}
