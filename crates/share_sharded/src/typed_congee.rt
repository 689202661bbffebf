//! `Congee`, the map from keys to values that numbers represent, which threads share in shards.
//!
//! Tested in `test_share_shards`.

ghost use Rattle.std.specs.Prelude.{◌≡◌, ◌≢◌, ◌/◌, [], IfOk, OnErr};
ghost use Rattle.std.specs.Option.{option_map};
ghost use Rattle.spec_map.specs.Call.{get, insert, remove};
ghost use Rattle.spec_olc.specs.Runs.{same_number};
ghost use Rattle.share_rule.specs.Known.{SeenMore};
ghost use Rattle.share_sharded.specs.Counts.{count_of};
ghost use Rattle.share_sharded.specs.Returned.{ReturnsExchanged, ReturnsOld};

use crossbeam_utils::Backoff;
pub use share_calls::guard::Guard;
use share_calls::guard::Missed;
use share_calls::map::Map;
use spec_map::error::OOMError;
use spec_map::traits::Word;
use std::alloc::Global;
use std::marker::{Model, PhantomData};
use std::sync::Wait;

// Makes a call again, after a pause, while it is busy.
macro_rules! made {
    ($rt:expr, $call:expr) => {{
        let pause = Backoff::new();
        for _ in $rt.forever() {
            if let Ok(answer) = $call {
                return answer;
            }
            pause.snooze();
        }
        unreachable!()
    }};
}

// Makes a call that takes memory again, after a pause, while it is busy.
macro_rules! made_or_refused {
    ($rt:expr, $call:expr) => {{
        let pause = Backoff::new();
        for _ in $rt.forever() {
            match $call {
                Ok(answer) => return Ok(answer),
                Err(Refusal::OutOfMemory) => return Err(OOMError::new()),
                Err(Refusal::Busy) => pause.snooze(),
            }
        }
        unreachable!()
    }};
}

mod computed;
mod ends;
mod ranges;
mod whole;

/// A lock that the call needs was taken at each of 200 tries. Nothing has changed.
#[derive(Clone, Copy, Debug, PartialEq, Eq)]
pub struct Busy;

/// Why nothing was stored. Nothing has changed.
#[derive(Clone, Copy, Debug, PartialEq, Eq)]
pub enum Refusal {
    /// A lock that the call needs was taken at each of 200 tries.
    Busy,
    /// Memory was missing.
    OutOfMemory,
}

/// How many shards a map has. A shard is a map under a lock of its own.
#[derive(Clone, Copy, Debug, PartialEq, Eq)]
pub enum Shards {
    /// One lock for the whole map.
    One,
    /// 64 locks, for many threads. Keys whose numbers differ in their last eight bits alone are of one shard.
    SixtyFour,
}

/// An ordered map from keys to values, both of types that are written as 64-bit numbers, which threads share. Two keys
/// with one number are one key.
///
/// A call on one key takes the lock of the key's shard, and a call on the whole takes those of all shards, lowest first.
/// Each call has a form that gives up where a lock stays taken (`try_get` and the like, with `Busy`), and one that pauses
/// and goes on. That this one returns isn't claimed.
///
/// Contracts see which map it is, with the number of its shards, `slots`, and the limit of each shard in bytes. Each call is
/// made by a guard of the map. What the guard has seen after a call is one legal history of the map: it begins with what
/// the guard had seen before, and ends with the call and its reply.
#[derive(Drop)]
pub struct Congee<K: Word, V: Word> {
    numbers: Map,
    of: PhantomData<(K, V)>,
}

impl<K: Word, V: Word> Model for Congee<K, V> {
    ghost use Rattle.share_shards.specs.Lock.{LockView, lock_view_coded};

    ghost Value = { LockView };

    ghost coded = { lock_view_coded };

    ghost view = { λ m. m.numbers };
}

fn empty(alloc: Global, shards: Shards, limit: u64) -> Result<Map, OOMError>
    ensures shards { IfOk result (λ map. map.table.slots ≡ count_of shards) }
    ensures limit { IfOk result (λ map. map.limit ≡ limit / count_of shards) }
{
    match shards {
        Shards::One => Map::new(alloc, limit),
        Shards::SixtyFour => Map::sharded(alloc, limit),
    }
}

fn refusal_of(missed: Missed) -> Refusal {
    match missed {
        Missed::Busy => Refusal::Busy,
        Missed::Oom => Refusal::OutOfMemory,
    }
}

fn read_back<V: Word>(number: Option<u64>) -> Option<V>
    ensures { result ≡ option_map V.of_number number }
{
    match number {
        Some(number) => Some(V::from_u64(number)),
        None => None,
    }
}

fn numbered<V: Word>(value: Option<V>) -> Option<u64>
    ensures { result ≡ option_map V.number value }
{
    match value {
        Some(value) => Some(value.into_u64()),
        None => None,
    }
}

impl<K: Word, V: Word> Congee<K, V> {
    /// An empty map. The stated sizes of the map's nodes are charged to a limit in bytes. Of 64 shards, each has a 64th of
    /// the limit, rounded down. `OOMError` if memory is missing, or a shard's limit is below its root's 2,104 bytes.
    pub fn new(alloc: Global, shards: Shards, limit: u64) -> Result<Self, OOMError>
        ensures shards { IfOk result (λ map. map.table.slots ≡ count_of shards) }
        ensures limit { IfOk result (λ map. map.limit ≡ limit / count_of shards) }
    {
        Ok(Congee {
            numbers: empty(alloc, shards, limit)?,
            of: PhantomData,
        })
    }

    /// A guard that has seen nothing. It waits for nobody and takes no memory. The map's nodes live as long as it.
    /// `OOMError` where there are 2 to the 63 guards.
    pub fn pin(&self) -> Result<Guard, OOMError>
        ensures { IfOk result (λ guard. (guard.table ≡ self.now.table) × (guard.seen ≡ [])) }
    {
        self.numbers.pin()
    }

    /// Drops a guard. Nobody waits for one that is kept.
    pub fn unpin(&self, guard: Guard) {
        drop(guard);
    }

    /// The current value of the key, read back from its number.
    pub fn try_get(&self, guard: &mut Guard, key: &K) -> Result<Option<V>, Busy>
        requires map { guard.old.table ≡ self.now.table }
        ensures map { guard.new.table ≡ guard.old.table }
        ensures made { IfOk result (λ value.
            ReturnsOld V.of_number guard.old (get (K.number key.now)) value guard.new) }
        ensures busy { OnErr result (guard.new ≡ guard.old) }
    {
        match guard.get(key.into_u64()) {
            Ok(number) => Ok(read_back(number)),
            Err(_) => Err(Busy),
        }
    }

    /// The current value of the key, read back from its number. Pauses and tries again while a lock that it needs is
    /// taken.
    pub fn get<R: Wait>(&self, rt: &R, guard: &mut Guard, key: &K) -> Option<V>
        requires map { guard.old.table ≡ self.now.table }
        ensures map { guard.new.table ≡ guard.old.table }
        ensures made { ReturnsOld V.of_number guard.old (get (K.number key.now)) result guard.new }
    {
        made!(rt, self.try_get(guard, key))
    }

    /// Stores a value at the key, and returns the previous one, read back from its number. `OutOfMemory` comes only for a
    /// new key.
    pub fn try_insert(&self, guard: &mut Guard, key: K, value: V) -> Result<Option<V>, Refusal>
        requires map { guard.old.table ≡ self.now.table }
        ensures map { guard.new.table ≡ guard.old.table }
        ensures made { IfOk result (λ before. ReturnsOld V.of_number guard.old
            (insert (K.number key) (V.number value)) before guard.new) }
        ensures refused { OnErr result (guard.new ≡ guard.old) }
    {
        match guard.insert(key.into_u64(), value.into_u64()) {
            Ok(number) => Ok(read_back(number)),
            Err(missed) => Err(refusal_of(missed)),
        }
    }

    /// Stores a value at the key, and returns the previous one, read back from its number. Pauses and tries again while
    /// a lock that it needs is taken. `OOMError` if memory was missing: then nothing has changed.
    pub fn insert<R: Wait>(
        &self,
        rt: &R,
        guard: &mut Guard,
        key: K,
        value: V,
    ) -> Result<Option<V>, OOMError>
        requires map { guard.old.table ≡ self.now.table }
        ensures map { guard.new.table ≡ guard.old.table }
        ensures made { IfOk result (λ before. ReturnsOld V.of_number guard.old
            (insert (K.number key) (V.number value)) before guard.new) }
        ensures refused { OnErr result (guard.new ≡ guard.old) }
    {
        made_or_refused!(rt, self.try_insert(guard, key, value))
    }

    /// Removes the key, and returns the previous value, read back from its number.
    pub fn try_remove(&self, guard: &mut Guard, key: &K) -> Result<Option<V>, Busy>
        requires map { guard.old.table ≡ self.now.table }
        ensures map { guard.new.table ≡ guard.old.table }
        ensures made { IfOk result (λ before.
            ReturnsOld V.of_number guard.old (remove (K.number key.now)) before guard.new) }
        ensures busy { OnErr result (guard.new ≡ guard.old) }
    {
        match guard.remove(key.into_u64()) {
            Ok(number) => Ok(read_back(number)),
            Err(_) => Err(Busy),
        }
    }

    /// Removes the key, and returns the previous value, read back from its number. Pauses and tries again while a lock
    /// that it needs is taken.
    pub fn remove<R: Wait>(&self, rt: &R, guard: &mut Guard, key: &K) -> Option<V>
        requires map { guard.old.table ≡ self.now.table }
        ensures map { guard.new.table ≡ guard.old.table }
        ensures made { ReturnsOld V.of_number guard.old (remove (K.number key.now)) result
            guard.new }
    {
        made!(rt, self.try_remove(guard, key))
    }

    /// If the number of `old` is stored at the key, stores `new`, or removes the key for `None`, and returns `Ok` with
    /// `new` itself. Otherwise changes nothing, and returns `Err` with the current value, read back from its number, or
    /// with `None` if the key is absent. Takes no memory.
    pub fn try_compare_exchange(
        &self,
        guard: &mut Guard,
        key: &K,
        old: &V,
        new: Option<V>,
    ) -> Result<Result<Option<V>, Option<V>>, Busy>
        requires map { guard.old.table ≡ self.now.table }
        ensures map { guard.new.table ≡ guard.old.table }
        ensures made { IfOk result (λ answer. ReturnsExchanged V.of_number guard.old V.number
            (K.number key.now) (V.number old.now) new answer guard.new) }
        ensures busy { OnErr result (guard.new ≡ guard.old) }
    {
        match guard.compare_exchange(key.into_u64(), old.into_u64(), numbered(new)) {
            Ok(Ok(_)) => Ok(Ok(new)),
            Ok(Err(current)) => Ok(Err(read_back(current))),
            Err(_) => Err(Busy),
        }
    }

    /// If the number of `old` is stored at the key, stores `new`, or removes the key for `None`, and returns `Ok` with
    /// `new` itself. Otherwise changes nothing, and returns `Err` with the current value, read back from its number, or
    /// with `None` if the key is absent. Takes no memory. Pauses and tries again while a lock that it needs is taken.
    pub fn compare_exchange<R: Wait>(
        &self,
        rt: &R,
        guard: &mut Guard,
        key: &K,
        old: &V,
        new: Option<V>,
    ) -> Result<Option<V>, Option<V>>
        requires map { guard.old.table ≡ self.now.table }
        ensures map { guard.new.table ≡ guard.old.table }
        ensures made { ReturnsExchanged V.of_number guard.old V.number
            (K.number key.now) (V.number old.now) new result guard.new }
    {
        made!(rt, self.try_compare_exchange(guard, key, old, new))
    }
}

/// Both guards, of one map, whose callers are two, have then seen one legal history, which begins with what each had seen.
pub fn meet(a: &mut Guard, b: &mut Guard)
    requires map { b.old.table ≡ a.old.table }
    ensures first { SeenMore same_number a.old a.new }
    ensures second { SeenMore same_number b.old b.new }
    ensures one { a.new.seen ≡ b.new.seen }
    ensures differ { a.old.caller ≢ b.old.caller }
{
    a.meet(b);
}
