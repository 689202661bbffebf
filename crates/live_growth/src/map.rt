//! The map, and its callers.
ghost use Rattle.std.specs.Prelude.{◌≡◌, ◌≢◌, ℕ, ◌-◌, ◌*◌, ◌≤◌, ◌^◌, [], IfOk, OnErr};
ghost use Rattle.word_segments.specs.Segments.{before};
ghost use Rattle.live_nodes.specs.Views.{ask, got, inserted};
ghost use Rattle.live_nodes.specs.Known.{MadeCall};
ghost use Rattle.live_reads.specs.Meetings.{SeenMore};

use crate::free_nodes::{Forms, FreeNodes};
use crate::insert::{reserve, try_insert};
use crate::link::Room;
use crate::make_root::make_root;
use crate::refill::Refills;
use live_nodes::heap::Heap;
use live_reads::get::get_once;
use live_reads::last_leaf::LastLeaf;
use live_reads::meeting::meet;
use live_reads::path::{Nodes, Seat};
use std::alloc::{AllocError, Global};
use std::marker::{Brand, Model};

/// How often a call is tried before it gives up.
pub const TRIES: u32 = 1000;

/// Too many writers came in between.
#[derive(Clone, Copy, Debug, PartialEq, Eq)]
pub struct Busy;

/// Why nothing was inserted.
#[derive(Clone, Copy, Debug, PartialEq, Eq)]
pub enum Refusal {
    Busy,
    OutOfMemory,
}

/// A map from keys to values, of 64 bits each. Threads share it. Its nodes are for the crates that add calls.
#[derive(Drop)]
pub struct Congee {
    /// Its nodes, for the crates that read them on their own.
    pub nodes: Nodes,
}

impl Model for Congee {
    ghost use Rattle.word_book.specs.Book.{Book, book_coded};

    ghost Value = { Book };

    ghost coded = { book_coded };

    ghost view = { λ m. m.nodes };
}

/// A caller of a map. Clauses see which map, the caller's number, and the history that it has seen.
///
/// Its fields are public for the crates that add calls. A program reads and writes none of them.
#[derive(Drop)]
pub struct Guard {
    /// Its seat, which knows the root word and has nothing locked.
    pub seat: Seat,
    /// Where it makes new nodes.
    pub room: Room,
}

impl Model for Guard {
    ghost use Rattle.live_nodes.specs.Known.{Known};
    ghost use Rattle.live_growth.specs.Calls.{known_of, IsReady};

    ghost Value = { Known };

    ghost view = { λ g. known_of g.seat.book g.seat.id g.seat.view };

    ghost invariant = { λ g. IsReady g.seat.view g.room };
}

impl Guard {
    /// Two callers of one map meet. Both have then seen one legal history, which begins with what each had seen.
    pub fn meet(&mut self, other: &mut Guard)
        requires map { self.old.book ≡ other.old.book }
        ensures first { SeenMore self.old self.new }
        ensures second { SeenMore other.old other.new }
        ensures one { self.new.seen ≡ other.new.seen }
        ensures differ { self.old.caller ≢ other.old.caller }
    {
        meet::<Brand>(&mut self.seat, &mut other.seat)
    }
}

impl Congee {
    /// An empty map. It has a root of 2,104 bytes. There is no limit: it is `u64::MAX`.
    pub fn new(alloc: Global) -> Result<Congee, AllocError>
        ensures limit { IfOk result (λ map. map.limit ≡ 2 ^ 64 - 1) }
    {
        Congee::with_limit(alloc, u64::MAX)
    }

    /// An empty map, whose segments may take so many bytes together. `AllocError` also where the first one of 4,096 bytes
    /// is more.
    pub fn with_limit(alloc: Global, limit: u64) -> Result<Congee, AllocError>
        ensures limit { IfOk result (λ map. map.limit ≡ limit) }
    {
        let (map, _) = Congee::with_guard(alloc, limit)?;
        Ok(map)
    }

    /// An empty map, as by `with_limit`, with its first caller. That one has what is left of the first segment.
    pub fn with_guard(alloc: Global, limit: u64) -> Result<(Congee, Guard), AllocError>
        ensures limit { IfOk result (λ made. made.0.limit ≡ limit) }
        ensures guard { IfOk result (λ made. (made.1.book ≡ made.0) × (made.1.seen ≡ [])) }
    {
        let nodes: Nodes = Heap::with_limit(alloc, 1, limit)?;
        let mut seat = nodes.enter();
        let mut room = Room {
            start: 0,
            left: 0,
            spare: FreeNodes::none(),
            cleanup_due: None,
            is_last: false,
            is_changed: false,
            used: Forms::none(),
            last: LastLeaf::none(),
        };
        let _ = reserve(&nodes, alloc, &mut room, &mut seat)?;
        if !make_root::<Brand>(&nodes, &mut room, &mut seat) {
            return Err(AllocError);
        }
        Ok((Congee { nodes }, Guard { seat, room }))
    }

    /// The limit in bytes that the map was made with, or `u64::MAX`.
    pub fn limit(&self) -> u64
        ensures { result ≡ self.now.limit }
    {
        self.nodes.limit()
    }

    /// The bytes of the segments that the map has so far, and how many bytes they may take together.
    pub fn usage(&self) -> (u64, u64)
        ensures whole { (n : ℕ) × (result.0 ≡ 8 * before n) }
        ensures within { result.0 ≤ result.1 }
        ensures limit { result.1 ≡ self.now.limit }
    {
        self.nodes.usage(&mut self.nodes.enter())
    }

    /// A caller, which has seen nothing yet.
    pub fn pin(&self) -> Guard
        ensures { (result.book ≡ self.now) × (result.seen ≡ []) }
    {
        Guard {
            seat: self.nodes.enter(),
            room: Room {
                start: 0,
                left: 0,
                spare: FreeNodes::none(),
                cleanup_due: None,
                is_last: false,
                is_changed: false,
                used: Forms::none(),
                last: LastLeaf::none(),
            },
        }
    }

    /// The value of a key.
    pub fn get(&self, guard: &mut Guard, key: u64) -> Result<Option<u64>, Busy>
        requires { guard.old.book ≡ self.now }
        ensures made { IfOk result (λ found. MadeCall guard.old
            (got (ask guard.old.caller key 0 0) found) guard.new) }
        ensures busy { OnErr result (guard.new ≡ guard.old) }
    {
        for _ in 0..TRIES {
            let last = &mut guard.room.last;
            if let Some(found) = get_once::<Brand>(&self.nodes, key, last, &mut guard.seat) {
                return Ok(found);
            }
        }
        Err(Busy)
    }

    /// Gives a key a value. The value before. Where a node is lacking, `from` is asked for more. Where that has none either, the call
    /// is made if it needs none.
    pub fn insert<R: Refills>(
        &self,
        from: &R,
        guard: &mut Guard,
        key: u64,
        value: u64,
    ) -> Result<Option<u64>, Refusal>
        requires map { guard.old.book ≡ self.now }
        requires serves { R.serves from.now self.now }
        ensures made { IfOk result (λ old. MadeCall guard.old
            (inserted (ask guard.old.caller key value 1) old) guard.new) }
        ensures refused { OnErr result (guard.new ≡ guard.old) }
    {
        for _ in 0..TRIES {
            match try_insert(
                &self.nodes,
                from,
                key,
                value,
                &mut guard.room,
                &mut guard.seat,
            ) {
                Ok(old) => return Ok(old),
                Err(Refusal::OutOfMemory) => return Err(Refusal::OutOfMemory),
                Err(Refusal::Busy) => {}
            }
        }
        Err(Refusal::Busy)
    }
}
