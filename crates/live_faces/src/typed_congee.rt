//! `Congee`, the map from keys to values that numbers represent, which threads read without a lock.
//!
//! Tested in `test_live_faces`.
ghost use Rattle.std.specs.Prelude.{◌≡◌, ◌≢◌, ◌-◌, ◌≤◌, ◌^◌, [], IfOk, IfErr, OnErr};
ghost use Rattle.live_updates.specs.Refusals.{FoundNone, Refused};
ghost use Rattle.std.specs.Option.{option_map};
ghost use Rattle.live_nodes.specs.Views.{ask, got, inserted};
ghost use Rattle.live_reads.specs.Meetings.{SeenMore};
ghost use Rattle.live_faces.specs.Returned.{ReturnsOld};

mod computed;
mod computes;
mod counts;
mod descents;
mod floors;
pub mod iter;
mod keys;
mod many;
mod moves;
pub mod notes;
mod pops;
mod removals;
mod retains;
mod scans;
mod updates;

use crossbeam_utils::Backoff;
pub use live_growth::map::{Busy, Guard, Refusal};
use live_pool::pool::Pool;
use spec_map::error::OOMError;
use spec_map::traits::Word;
use std::alloc::Global;
use std::marker::{Model, PhantomData};
use std::sync::Wait;

/// An ordered map from keys to values, both of types that are written as 64-bit numbers, which threads share. Two keys
/// with one number are one key.
///
/// A look-up takes no lock, and writes nothing that other threads read. A writer locks single nodes. Each call has a form
/// that gives up where too many writers come in between (`try_get` and the like, with `Busy`), and one that pauses and goes
/// on. That this one returns isn't claimed.
///
/// Contracts see which map it is. Each call is made by a guard of the map. What the guard has seen after a call is one
/// legal history of the map: it begins with what the guard had seen before, and ends with the call and its reply.
#[derive(Drop)]
pub struct Congee<K: Word, V: Word> {
    pool: Pool,
    of: PhantomData<(K, V)>,
}

impl<K: Word, V: Word> Model for Congee<K, V> {
    ghost use Rattle.word_book.specs.Book.{Book, book_coded};

    ghost Value = { Book };

    ghost coded = { book_coded };

    ghost view = { λ m. m.pool };
}

fn read_back<V: Word>(number: Option<u64>) -> Option<V>
    ensures { result ≡ option_map V.of_number number }
{
    match number {
        Some(number) => Some(V::from_u64(number)),
        None => None,
    }
}

impl<K: Word, V: Word> Congee<K, V> {
    /// An empty map. It has a root of 2,104 bytes. `OOMError` if there is no memory for it.
    pub fn new(alloc: Global) -> Result<Self, OOMError>
        ensures limit { IfOk result (λ map. map.limit ≡ 2 ^ 64 - 1) }
    {
        Congee::with_limit(alloc, u64::MAX)
    }

    /// An empty map, whose nodes lie in segments that may take so many bytes together. The first 32 have 4,096 bytes each, the
    /// next 32 twice as many, and so on up to 524,288. `OOMError` if memory is missing, or the limit is below the first.
    ///
    /// A call that needs one more than the limit is for is out of memory. Nodes that were taken out are used again, and are not
    /// cut: a map that was emptied of dense keys may refuse most keys that lie far from one another, and a new map takes them.
    pub fn with_limit(alloc: Global, limit: u64) -> Result<Self, OOMError>
        ensures limit { IfOk result (λ map. map.limit ≡ limit) }
    {
        Ok(Congee {
            pool: Pool::with_limit(alloc, limit)?,
            of: PhantomData,
        })
    }

    /// The limit in bytes that the map was made with, or `u64::MAX`.
    pub fn limit(&self) -> u64
        ensures { result ≡ self.now.limit }
    {
        self.pool.map.limit()
    }

    /// The bytes of the segments that the map has so far, and the limit, which they are within. Other threads may make more
    /// segments meanwhile.
    pub fn usage(&self) -> (u64, u64)
        ensures within { result.0 ≤ result.1 }
        ensures limit { result.1 ≡ self.now.limit }
    {
        self.pool.map.usage()
    }

    /// The bytes of the segments that the map has so far, which are within the limit. Other threads may make more meanwhile.
    pub fn charged(&self) -> u64
        ensures { result ≤ self.now.limit }
    {
        self.usage().0
    }

    /// A guard that has seen nothing. It takes no memory, and waits for nobody.
    ///
    /// One that has inserted has room for nodes, of 512 KiB at most. `unpin` gives that to the next guard. If it is dropped
    /// instead, the room is free again with the map alone.
    pub fn pin(&self) -> Guard
        ensures { (result.book ≡ self.now) × (result.seen ≡ []) }
    {
        self.pool.pin()
    }

    /// Gives a guard back. The next one gets its room for nodes. Nobody waits for one that is kept.
    pub fn unpin(&self, guard: Guard)
        requires map { guard.book ≡ self.now }
    {
        self.pool.unpin(guard);
    }

    /// The current value of the key, read back from its number. `Busy` if too many writers came in between: then nothing has
    /// changed.
    pub fn try_get(&self, guard: &mut Guard, key: &K) -> Result<Option<V>, Busy>
        requires map { guard.old.book ≡ self.now }
        ensures map { guard.new.book ≡ guard.old.book }
        ensures made { IfOk result (λ value. ReturnsOld V.of_number guard.old
            (got (ask guard.old.caller (K.number key.now) 0 0)) value guard.new) }
        ensures busy { OnErr result (guard.new ≡ guard.old) }
    {
        let number = self.pool.map.get(guard, key.into_u64())?;
        Ok(read_back(number))
    }

    /// The current value of the key, read back from its number. Pauses where `try_get` is busy, and goes on.
    pub fn get<R: Wait>(&self, rt: &R, guard: &mut Guard, key: &K) -> Option<V>
        requires map { guard.old.book ≡ self.now }
        ensures map { guard.new.book ≡ guard.old.book }
        ensures made { ReturnsOld V.of_number guard.old
            (got (ask guard.old.caller (K.number key.now) 0 0)) result guard.new }
    {
        let pause = Backoff::new();
        for _ in rt.forever() {
            if let Ok(value) = self.try_get(guard, key) {
                return value;
            }
            pause.snooze();
        }
        unreachable!()
    }

    /// Stores a value at the key, and returns the previous one, read back from its number. `Refusal::Busy` if too many
    /// writers came in between, and `Refusal::OutOfMemory` if memory was missing for a new key: then a look-up of the key is
    /// entered, which found none.
    pub fn try_insert(
        &self,
        alloc: Global,
        guard: &mut Guard,
        key: K,
        value: V,
    ) -> Result<Option<V>, Refusal>
        requires map { guard.old.book ≡ self.now }
        ensures map { guard.new.book ≡ guard.old.book }
        ensures made { IfOk result (λ before. ReturnsOld V.of_number guard.old
            (inserted (ask guard.old.caller (K.number key) (V.number value) 1)) before guard.new) }
        ensures refused { IfErr result (λ why. Refused guard.old (K.number key) why guard.new) }
    {
        let number = self
            .pool
            .insert(alloc, guard, key.into_u64(), value.into_u64())?;
        Ok(read_back(number))
    }

    /// Stores a value at the key, and returns the previous one, read back from its number. Pauses where `try_insert` is busy,
    /// and goes on. `OOMError` if memory was missing for a new key: then a look-up of the key is entered, which found none.
    pub fn insert<R: Wait>(
        &self,
        rt: &R,
        alloc: Global,
        guard: &mut Guard,
        key: K,
        value: V,
    ) -> Result<Option<V>, OOMError>
        requires map { guard.old.book ≡ self.now }
        ensures map { guard.new.book ≡ guard.old.book }
        ensures made { IfOk result (λ before. ReturnsOld V.of_number guard.old
            (inserted (ask guard.old.caller (K.number key) (V.number value) 1)) before guard.new) }
        ensures refused { OnErr result (FoundNone guard.old (K.number key) guard.new) }
    {
        let pause = Backoff::new();
        for _ in rt.forever() {
            match self.try_insert(alloc, guard, key, value) {
                Ok(before) => return Ok(before),
                Err(Refusal::OutOfMemory) => return Err(OOMError::new()),
                Err(Refusal::Busy) => pause.snooze(),
            }
        }
        unreachable!()
    }
}

/// Both guards, of one map, whose callers are two, have then seen one legal history, which begins with what each had seen.
pub fn meet(a: &mut Guard, b: &mut Guard)
    requires map { b.old.book ≡ a.old.book }
    ensures first { SeenMore a.old a.new }
    ensures second { SeenMore b.old b.new }
    ensures one { a.new.seen ≡ b.new.seen }
    ensures differ { a.old.caller ≢ b.old.caller }
{
    a.meet(b);
}
