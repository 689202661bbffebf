//! The calls that make nodes or take nodes out, with the guard's spare nodes kept in order.
//!
//! Each is the call of the map. Before it a guard with little room gets nodes. After it one too many goes to the others, and paths
//! are tidied that a writer was busy at.
ghost use Rattle.std.specs.Prelude.{◌≡◌, ℕ, ◌+◌, ◌<◌, ◌≤◌, length, take, IfOk, IfErr, IfSome, OnErr, unwrap_or};
ghost use Rattle.live_nodes.specs.Views.{ask, inserted};
ghost use Rattle.live_nodes.specs.Known.{MadeCall};
ghost use Rattle.live_updates.specs.Entries.{removed, swapped};
ghost use Rattle.live_updates.specs.Takings.{HasTakenOut};
ghost use Rattle.live_updates.specs.Refusals.{Refused};
ghost use Rattle.live_updates.specs.Closures.{Reaches, EndsWithCall};
ghost use Rattle.live_updates.specs.ClosureEntries.{computed_with, inserted_with, sum_with};

use crate::pool::Pool;
use crate::supply::Supply;
use live_growth::map::{Busy, Guard, Refusal};
use live_updates::computes::present;
use live_updates::{calls, takings};
use std::alloc::Global;

impl Pool {
    /// Gives a key a value. The value before.
    pub fn insert(
        &self,
        alloc: Global,
        guard: &mut Guard,
        key: u64,
        value: u64,
    ) -> Result<Option<u64>, Refusal>
        requires { guard.old.book ≡ self.now }
        ensures made { IfOk result (λ old. MadeCall guard.old
            (inserted (ask guard.old.caller key value 1) old) guard.new) }
        ensures refused { IfErr result (λ why. Refused guard.old key why guard.new) }
    {
        self.ready(guard);
        let from = Supply { pool: self, alloc };
        match self.map.insert(&from, guard, key, value) {
            Ok(old) => {
                self.settle(guard);
                Ok(old)
            }
            Err(why) => Err(self.refuse(guard, key, why)),
        }
    }

    /// Removes a key: the value that it had. Needs no memory.
    pub fn remove(&self, guard: &mut Guard, key: u64) -> Result<Option<u64>, Busy>
        requires { guard.old.book ≡ self.now }
        ensures made { IfOk result (λ before. MadeCall guard.old
            (removed guard.old.caller key before) guard.new) }
        ensures busy { OnErr result (guard.new ≡ guard.old) }
    {
        self.begin(guard);
        let done = calls::remove(&self.map, guard, key);
        self.settle(guard);
        done
    }

    /// Replaces a key's value by `new`, or removes it for `None`, if it is `old`. `Ok` with `new`, or `Err` with the current
    /// value, or with `None` where the key is absent. Needs no memory.
    pub fn compare_exchange(
        &self,
        guard: &mut Guard,
        key: u64,
        old: u64,
        new: Option<u64>,
    ) -> Result<Result<Option<u64>, Option<u64>>, Busy>
        requires { guard.old.book ≡ self.now }
        ensures made { IfOk result (λ answer. MadeCall guard.old
            (swapped guard.old.caller key old new answer) guard.new) }
        ensures stored { IfOk result (λ answer. IfOk answer (λ stored. stored ≡ new)) }
        ensures busy { OnErr result (guard.new ≡ guard.old) }
    {
        self.begin(guard);
        let done = calls::compare_exchange(&self.map, guard, key, old, new);
        self.settle(guard);
        done
    }

    /// Removes the pairs with keys from `key` to `last` that are in the key's leaf, at one moment. Writes them into the buffer,
    /// ascending, as many as fit, and returns how many. 0 where there is none, or a writer came in between: then nothing has
    /// changed. Needs no memory.
    pub fn take_from_leaf(
        &self,
        guard: &mut Guard,
        key: u64,
        last: u64,
        buffer: &mut [(u64, u64)],
    ) -> usize
        requires map { guard.old.book ≡ self.now }
        requires order { key ≤ last }
        requires some_room { 0 < length buffer.old }
        ensures few { result ≤ length buffer.old }
        ensures none { result ≡ 0 → guard.new ≡ guard.old }
        ensures taken { 1 ≤ result
            → HasTakenOut guard.old key (last + 1) (take result buffer.new) guard.new }
    {
        self.begin(guard);
        let count = takings::take_from_leaf(&self.map, guard, key, last, buffer);
        self.settle(guard);
        count
    }

    /// Gives an absent key a value. The value of a present one.
    pub fn get_or_insert(
        &self,
        alloc: Global,
        guard: &mut Guard,
        key: u64,
        value: u64,
    ) -> Result<Option<u64>, Refusal>
        requires { guard.old.book ≡ self.now }
        ensures made { IfOk result (λ found. MadeCall guard.old
            (inserted_with guard.old.caller key found (unwrap_or found value)) guard.new) }
        ensures refused { IfErr result (λ why. Refused guard.old key why guard.new) }
    {
        self.ready(guard);
        let from = Supply { pool: self, alloc };
        match present::get_or_insert(&self.map, &from, guard, key, value) {
            Ok(old) => {
                self.settle(guard);
                Ok(old)
            }
            Err(why) => Err(self.refuse(guard, key, why)),
        }
    }

    /// Adds a number to a key's value, modulo 2 to the 64. An absent key gets the number itself. The value before.
    pub fn add(
        &self,
        alloc: Global,
        guard: &mut Guard,
        key: u64,
        number: u64,
    ) -> Result<Option<u64>, Refusal>
        requires { guard.old.book ≡ self.now }
        ensures made { IfOk result (λ before. MadeCall guard.old
            (inserted_with guard.old.caller key before (sum_with before number)) guard.new) }
        ensures refused { IfErr result (λ why. Refused guard.old key why guard.new) }
    {
        self.ready(guard);
        let from = Supply { pool: self, alloc };
        match present::add(&self.map, &from, guard, key, number) {
            Ok(old) => {
                self.settle(guard);
                Ok(old)
            }
            Err(why) => Err(self.refuse(guard, key, why)),
        }
    }

    /// Stores what a closure returns for a present key's value, or removes the key for `None`. What it was called with last, and
    /// what it returned.
    pub fn compute_if_present<F: FnMut(u64) -> Option<u64>>(
        &self,
        guard: &mut Guard,
        key: u64,
        f: &mut F,
    ) -> Result<Option<(u64, Option<u64>)>, Busy>
        requires map { guard.old.book ≡ self.now }
        requires callable { F.IsAlwaysCallable f.old }
        ensures callable { F.IsAlwaysCallable f.new }
        ensures reached { Reaches F.step f.old f.new }
        ensures made { IfOk result (λ both. MadeCall guard.old
            (computed_with guard.old.caller key both) guard.new) }
        ensures asked { IfOk result (λ both. IfSome both (λ pair.
            EndsWithCall F.step f.old pair.0 pair.1 f.new)) }
        ensures busy { OnErr result (guard.new ≡ guard.old) }
    {
        self.begin(guard);
        let done = present::compute_if_present(&self.map, guard, key, f);
        self.settle(guard);
        done
    }

    /// Stores what a closure returns for a key's value, or for none. The value that it was called with last.
    pub fn compute_or_insert<F: FnMut(Option<u64>) -> u64>(
        &self,
        alloc: Global,
        guard: &mut Guard,
        key: u64,
        f: &mut F,
    ) -> Result<Option<u64>, Refusal>
        requires map { guard.old.book ≡ self.now }
        requires callable { F.IsAlwaysCallable f.old }
        ensures callable { F.IsAlwaysCallable f.new }
        ensures reached { Reaches F.step f.old f.new }
        ensures made { IfOk result (λ before. (new : ℕ)
            × MadeCall guard.old (inserted_with guard.old.caller key before new) guard.new
            × EndsWithCall F.step f.old before new f.new) }
        ensures refused { IfErr result (λ why. Refused guard.old key why guard.new) }
    {
        self.ready(guard);
        let from = Supply { pool: self, alloc };
        match present::compute_or_insert(&self.map, &from, guard, key, f) {
            Ok(old) => {
                self.settle(guard);
                Ok(old)
            }
            Err(why) => Err(self.refuse(guard, key, why)),
        }
    }
}
