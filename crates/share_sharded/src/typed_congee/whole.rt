//! The calls on the whole map: its counts, its limit and what it is charged, and its removal.
//!
//! Tested in `test_share_shards`.

ghost use Rattle.std.specs.Prelude.{◌≡◌, ◌≤◌, ◌*◌, ℕ, IfOk, OnErr, OnOk};
ghost use Rattle.share_rule.specs.Known.{MadeCall, MadeCalls};
ghost use Rattle.share_calls.specs.Charged.{IsCharged};
ghost use Rattle.share_works.specs.Made.{clearing, returned};
ghost use Rattle.spec_map.specs.Call.{count, counted, is_empty as is_empty_call, tested};
ghost use Rattle.spec_map.specs.Map.{Pairs};
ghost use Rattle.spec_olc.specs.Runs.{same_number};

use super::{Busy, Congee, Guard};
use crossbeam_utils::Backoff;
use spec_map::traits::Word;
use std::sync::Wait;

impl<K: Word, V: Word> Congee<K, V> {
    /// How many pairs there are: 2 to the 64 at most. Takes constant time.
    pub fn try_value_count(&self, guard: &mut Guard) -> Result<u128, Busy>
        requires map { guard.old.table ≡ self.now.table }
        ensures map { guard.new.table ≡ guard.old.table }
        ensures made { IfOk result (λ number. MadeCall same_number guard.old
            (returned count (counted number)) guard.new) }
        ensures busy { OnErr result (guard.new ≡ guard.old) }
    {
        match guard.count() {
            Ok(answer) => Ok(answer),
            Err(_) => Err(Busy),
        }
    }

    /// How many pairs there are: 2 to the 64 at most. Takes constant time. Pauses and tries again while a lock that it
    /// needs is taken.
    pub fn value_count<R: Wait>(&self, rt: &R, guard: &mut Guard) -> u128
        requires map { guard.old.table ≡ self.now.table }
        ensures map { guard.new.table ≡ guard.old.table }
        ensures made { MadeCall same_number guard.old (returned count (counted result)) guard.new }
    {
        made!(rt, self.try_value_count(guard))
    }

    /// Whether there is no pair.
    pub fn try_is_empty(&self, guard: &mut Guard) -> Result<bool, Busy>
        requires map { guard.old.table ≡ self.now.table }
        ensures map { guard.new.table ≡ guard.old.table }
        ensures made { IfOk result (λ empty. MadeCall same_number guard.old
            (returned is_empty_call (tested empty)) guard.new) }
        ensures busy { OnErr result (guard.new ≡ guard.old) }
    {
        match guard.is_empty() {
            Ok(answer) => Ok(answer),
            Err(_) => Err(Busy),
        }
    }

    /// Whether there is no pair. Pauses and tries again while a lock that it needs is taken.
    pub fn is_empty<R: Wait>(&self, rt: &R, guard: &mut Guard) -> bool
        requires map { guard.old.table ≡ self.now.table }
        ensures map { guard.new.table ≡ guard.old.table }
        ensures made { MadeCall same_number guard.old
            (returned is_empty_call (tested result)) guard.new }
    {
        made!(rt, self.try_is_empty(guard))
    }

    /// The sum of the shards' limits in bytes. The map is charged no more. Takes constant time.
    pub fn limit(&self) -> u64
        ensures { result ≡ self.now.table.slots * self.now.limit }
    {
        self.numbers.limit()
    }

    /// The sum in bytes of the stated sizes of the map's nodes, which is within its limit. Takes constant time.
    pub fn try_charged(&self, guard: &mut Guard) -> Result<u128, Busy>
        requires map { guard.old.table ≡ self.now.table }
        ensures map { guard.new.table ≡ guard.old.table }
        ensures made { IfOk result (λ bytes. IsCharged guard.old bytes guard.new) }
        ensures within { IfOk result (λ bytes. bytes ≤ self.now.table.slots * self.now.limit) }
        ensures busy { OnErr result (guard.new ≡ guard.old) }
    {
        match self.numbers.charged(guard) {
            Ok(answer) => Ok(answer),
            Err(_) => Err(Busy),
        }
    }

    /// The sum in bytes of the stated sizes of the map's nodes, which is within its limit. Takes constant time. Pauses
    /// and tries again while a lock that it needs is taken.
    pub fn charged<R: Wait>(&self, rt: &R, guard: &mut Guard) -> u128
        requires map { guard.old.table ≡ self.now.table }
        ensures map { guard.new.table ≡ guard.old.table }
        ensures made { IsCharged guard.old result guard.new }
        ensures within { result ≤ self.now.table.slots * self.now.limit }
    {
        made!(rt, self.try_charged(guard))
    }

    /// Removes all pairs. Of the nodes each shard's root stays.
    pub fn try_clear(&self, guard: &mut Guard) -> Result<(), Busy>
        requires map { guard.old.table ≡ self.now.table }
        ensures map { guard.new.table ≡ guard.old.table }
        ensures made { OnOk result ((pairs : Pairs ℕ)
            × MadeCalls same_number guard.old (clearing pairs) guard.new) }
        ensures busy { OnErr result (guard.new ≡ guard.old) }
    {
        match guard.clear() {
            Ok(()) => Ok(()),
            Err(_) => Err(Busy),
        }
    }

    /// Removes all pairs. Of the nodes each shard's root stays. Pauses and tries again while a lock that it needs is
    /// taken.
    pub fn clear<R: Wait>(&self, rt: &R, guard: &mut Guard)
        requires map { guard.old.table ≡ self.now.table }
        ensures map { guard.new.table ≡ guard.old.table }
        ensures made { (pairs : Pairs ℕ)
            × MadeCalls same_number guard.old (clearing pairs) guard.new }
    {
        made!(rt, self.try_clear(guard))
    }
}
