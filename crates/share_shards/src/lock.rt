//! The sharded lock, and the seats at its table.
//!
//! Tested in `test_share_shards`.

ghost use Rattle.std.specs.Prelude.{◌≡◌, ◌≢◌, ◌<◌, ◌≤◌, ◌*◌, ◌++◌, ℕ, List, [], ◌∷◌, map, reverse, Option, Some, None, IfOk, IsTrue, IsFalse, All, length};
ghost use Rattle.atomic_table.specs.Table.{rest};
ghost use Rattle.share_shards.specs.Held.{Visited, numbers, slots_of, values_of};
ghost use Rattle.share_shards.specs.inner.Steps.{Appended, HeldBy, Holds, IsIdle, MayAppend, SeesMore, Took, Won, caller_of, held_of, seen_of, without_last};

use crate::rule::{Append, Cut, Done, Enter, Law, Limit, Meet, Pair, Release, Sharded, Try};
use crate::view::View;
use crate::work::{Visit, Work};
use atomic_table::{Seat, Table};
use spec_map::error::OOMError;
use std::alloc::Global;
use std::hint::spin_loop;
use std::marker::{Brand, Model};
use std::mem;

// A shard's word.
const FREE: u64 = 0;

const TAKEN: u64 = 1;

/// A seat at the lock's table. It has no bytes.
pub type LockSeat<T, S> = Seat<Option<S>, View<T, S>>;

type Board<T, S> = Table<Option<S>, View<T, S>, u64, Law<T, S>, Global>;

/// A map that threads share, each shard of it under a lock of its own, on which no thread sleeps. Contracts see which
/// map it is, and the limit of each shard.
#[derive(Drop)]
pub struct ShardLock<T, S: Sharded<T>> {
    board: Board<T, S>,
    shards: usize,
    limit: u64,
}

impl<T, S: Sharded<T>> Model for ShardLock<T, S> {
    ghost use Rattle.std.specs.Prelude.{◌≡◌, ◌<◌, ◌≤◌, ◌*◌};
    ghost use Rattle.share_shards.specs.Lock.{LockView, lock_view_coded};

    ghost Value = { LockView };

    ghost coded = { lock_view_coded };

    ghost view = { λ l. record { table = l.board.shared.table_id; limit = l.board.shared.key } };

    ghost invariant = { λ l. (8 * l.board.shared.table_id.slots ≤ l.board.shared.table_id.words)
        × (l.board.shared.table_id.slots ≤ 1024) × (0 < l.board.shared.table_id.slots)
        × (l.shards ≡ l.board.shared.table_id.slots) × (l.limit ≡ l.board.shared.key) };
}

impl<T, S: Sharded<T> + Drop> ShardLock<T, S> {
    /// A lock of an empty map, with a shard for each slot, and eight words for each shard. Each shard has this limit.
    /// `OOMError` if there is no memory for it.
    pub fn new(
        alloc: Global,
        words: &[u64],
        slots: Vec<Option<S>>,
        limit: u64,
    ) -> Result<Self, OOMError>
        requires some { 0 < length slots.items }
        requires few { length slots.items ≤ 1024 }
        requires words { 8 * length slots.items ≤ length words.now }
        requires slots { (parts : List S) × (slots.items ≡ map (λ part. Some part) parts)
            × All (λ part. S.content limit part []) parts }
        ensures shards { IfOk result (λ lock. lock.table.slots ≡ length slots.items) }
        ensures limit { IfOk result (λ lock. lock.limit ≡ limit) }
    {
        let shards = slots.len();
        let Ok((board, _)) = Board::new(alloc, words, slots, &limit) else {
            return Err(OOMError::new());
        };
        Ok(ShardLock {
            board,
            shards,
            limit,
        })
    }

    /// How many shards there are.
    pub fn shards(&self) -> usize
        ensures { result ≡ self.now.table.slots }
    {
        self.shards
    }

    /// The limit of each shard.
    pub fn limit(&self) -> u64
        ensures { result ≡ self.now.limit }
    {
        self.limit
    }

    /// A seat with a caller of its own, which has seen nothing.
    pub fn seat(&self) -> LockSeat<T, S>
        ensures table { result.table_id ≡ self.now.table }
        ensures idle { IsIdle result.me }
        ensures nothing { seen_of result.me.0 ≡ [] }
    {
        let (_, seat) = self.board.shared.load_new_seat::<Enter>(0);
        seat
    }

    /// Both callers, which are two, have then seen the same, which begins with what each had seen.
    pub fn meet(&self, a: &mut LockSeat<T, S>, b: &mut LockSeat<T, S>)
        requires first_table { a.old.table_id ≡ self.now.table }
        requires first_idle { IsIdle a.old.me }
        requires second_table { b.old.table_id ≡ self.now.table }
        requires second_idle { IsIdle b.old.me }
        ensures first_table { a.new.table_id ≡ a.old.table_id }
        ensures first { SeesMore S.same a.old.me a.new.me }
        ensures second_table { b.new.table_id ≡ b.old.table_id }
        ensures second { SeesMore S.same b.old.me b.new.me }
        ensures one { seen_of a.new.me.0 ≡ seen_of b.new.me.0 }
        ensures differ { caller_of a.old.me.0 ≢ caller_of b.old.me.0 }
    {
        let spare = self.board.shared.split_seat::<Cut>(a);
        let other = mem::replace(b, spare);
        self.board.shared.join_seat::<Pair>(a, other);
        self.board.shared.load::<Meet>(a, 0);
        *b = self.board.shared.split_seat::<Pair>(a);
    }

    /// Does this work at this shard, where its value is stored, if the shard's lock is free at one of so many tries.
    /// `false` changes nothing. Clauses see the value that was found.
    pub fn hold<E, W: Work<T, S, E>>(
        &self,
        shard: usize,
        seat: &mut LockSeat<T, S>,
        work: &mut W,
        buffer: &mut [E],
        tries: u32,
    ) -> bool
        requires table { seat.old.table_id ≡ self.now.table }
        requires idle { IsIdle seat.old.me }
        requires suits { W.suits work.old self.now.table.slots }
        requires shard { shard ≡ W.place work.old self.now.table.slots }
        requires within { shard < self.now.table.slots }
        ensures table { seat.new.table_id ≡ seat.old.table_id }
        ensures held { IsTrue result → (found : S)
            × HeldBy S.same (W.made work.new found) seat.old.me seat.new.me
            × W.does work.old buffer.old found work.new buffer.new }
        ensures missed { IsFalse result → (seat.new.me ≡ seat.old.me) × (work.new ≡ work.old)
            × (buffer.new ≡ buffer.old) }
        ensures idle { IsIdle seat.new.me }
    {
        if !self.take_one(shard, seat, tries) {
            return false;
        }
        let Some(value) = seat.slot_mut(&self.board.shared, shard) else {
            unreachable!()
        };
        work.work(value, buffer);
        self.append::<Brand, _>(shard, seat, work);
        self.release_one(shard, seat);
        true
    }

    /// Takes the locks of these shards, one after another, each at one of so many tries. `false` if one stays taken:
    /// the others are released, and nothing has changed. Callers pass shards in ascending order, each once, so that no two
    /// of them wait for one another.
    pub fn take(&self, shards: &[usize], seat: &mut LockSeat<T, S>, tries: u32) -> bool
        requires table { seat.old.table_id ≡ self.now.table }
        requires holds { Holds (S.content self.now.limit) (S.shard self.now.table.slots)
            seat.old.me }
        requires within { All (λ shard. shard < self.now.table.slots) shards.now }
        ensures table { seat.new.table_id ≡ seat.old.table_id }
        ensures took { IsTrue result
            → Took (S.content self.now.limit) (S.shard self.now.table.slots) shards.now seat.old.me
            seat.new.me }
        ensures missed { IsFalse result → seat.new.me ≡ seat.old.me }
    {
        let Some((first, others)) = shards.split_first() else {
            return true;
        };
        if !self.take_one(*first, seat, tries) {
            return false;
        }
        if self.take(others, seat, tries) {
            return true;
        }
        self.release_one(*first, seat);
        false
    }

    /// Visits each of these shards, which the seat holds, the last that was taken first.
    pub fn each<E, V: Visit<S, E>>(
        &self,
        shards: &[usize],
        seat: &mut LockSeat<T, S>,
        visit: &mut V,
        buffer: &mut [E],
    )
        requires table { seat.old.table_id ≡ self.now.table }
        requires slots { (held : List (ℕ × S)) × (others : List (ℕ × Option S))
            × (seat.old.me.1 ≡ slots_of held ++ others) × (numbers held ≡ reverse shards.now) }
        ensures table { seat.new.table_id ≡ seat.old.table_id }
        ensures view { seat.new.me.0 ≡ seat.old.me.0 }
        ensures visited { (held : List (ℕ × S)) (others : List (ℕ × Option S))
            → seat.old.me.1 ≡ slots_of held ++ others → numbers held ≡ reverse shards.now
            → (values : List (ℕ × S)) × (seat.new.me.1 ≡ others ++ slots_of values)
            × Visited V.does visit.old buffer.old held visit.new buffer.new values }
    {
        let Some((last, others)) = shards.split_last() else {
            return;
        };
        let Some(value) = seat.slot_mut(&self.board.shared, *last) else {
            unreachable!()
        };
        visit.visit(*last, value, buffer);
        seat.turn();
        self.each::<E, V>(others, seat, visit, buffer);
    }

    /// Appends to the history what the call picks as done by this work, and releases the locks of these shards, which
    /// are all that the seat holds.
    pub fn release<D: Done<T>, W>(&self, shards: &[usize], seat: &mut LockSeat<T, S>, work: &W)
        requires table { seat.old.table_id ≡ self.now.table }
        requires shards { numbers (held_of seat.old.me.0) ≡ reverse shards.now }
        requires within { All (λ shard. shard < self.now.table.slots) shards.now }
        requires may { MayAppend S.same (S.content self.now.limit) (S.shard self.now.table.slots)
            D.operations seat.old.me (held_of seat.old.me.0) (values_of seat.old.me.1) }
        ensures table { seat.new.table_id ≡ seat.old.table_id }
        ensures held { HeldBy S.same D.operations seat.old.me seat.new.me }
        ensures idle { IsIdle seat.new.me }
    {
        // For the checker: that there is a shard.
        let _ = &self.board;
        self.append::<D, W>(0, seat, work);
        self.release_all(shards, seat);
    }

    // Takes the lock of one more shard, if it is free at one of so many tries.
    fn take_one(&self, shard: usize, seat: &mut LockSeat<T, S>, tries: u32) -> bool
        requires table { seat.old.table_id ≡ self.now.table }
        requires holds { Holds (S.content self.now.limit) (S.shard self.now.table.slots)
            seat.old.me }
        requires within { shard < self.now.table.slots }
        ensures table { seat.new.table_id ≡ seat.old.table_id }
        ensures won { IsTrue result
            → Won (S.content self.now.limit) (S.shard self.now.table.slots) shard seat.old.me
            seat.new.me }
        ensures missed { IsFalse result → seat.new.me ≡ seat.old.me }
    {
        self.try_one::<Brand>(shard, seat, tries)
    }

    // Takes the lock of one more shard, if it is free at one of so many tries. Its steps name the limit by the type `B`.
    fn try_one<B: Limit>(&self, shard: usize, seat: &mut LockSeat<T, S>, tries: u32) -> bool
        requires limit { B.limit ≡ self.now.limit }
        requires table { seat.old.table_id ≡ self.now.table }
        requires holds { Holds (S.content B.limit) (S.shard self.now.table.slots) seat.old.me }
        requires within { shard < self.now.table.slots }
        ensures table { seat.new.table_id ≡ seat.old.table_id }
        ensures won { IsTrue result
            → Won (S.content B.limit) (S.shard self.now.table.slots) shard seat.old.me seat.new.me }
        ensures missed { IsFalse result → seat.new.me ≡ seat.old.me }
    {
        let table = &self.board.shared;
        let word = 8 * shard;
        for _ in 0..tries {
            if table.peek(word) == FREE
                && table.compare_exchange::<Try<B>>(seat, word, FREE, TAKEN) == FREE
            {
                return true;
            }
            spin_loop();
        }
        false
    }

    // Appends to the history what the call picks as done by this work, by a look at the word of this shard.
    fn append<D: Done<T>, W>(&self, shard: usize, seat: &mut LockSeat<T, S>, work: &W)
        requires table { seat.old.table_id ≡ self.now.table }
        requires within { shard < self.now.table.slots }
        requires may { (held : List (ℕ × S)) × (values : List (ℕ × S))
            × MayAppend S.same (S.content self.now.limit) (S.shard self.now.table.slots)
            D.operations seat.old.me held values }
        ensures table { seat.new.table_id ≡ seat.old.table_id }
        ensures appended { Appended S.same (S.content self.now.limit)
            (S.shard self.now.table.slots) D.operations seat.old.me (values_of seat.old.me.1)
            seat.new.me }
    {
        let _ = work;
        self.append_at::<D, Brand>(shard, seat);
    }

    // Appends to the history what the call picks, by a look at the word of this shard. The step names the limit by the type
    // `B`.
    fn append_at<D: Done<T>, B: Limit>(&self, shard: usize, seat: &mut LockSeat<T, S>)
        requires limit { B.limit ≡ self.now.limit }
        requires table { seat.old.table_id ≡ self.now.table }
        requires within { shard < self.now.table.slots }
        requires may { (held : List (ℕ × S)) × (values : List (ℕ × S))
            × MayAppend S.same (S.content B.limit) (S.shard self.now.table.slots) D.operations
            seat.old.me held values }
        ensures table { seat.new.table_id ≡ seat.old.table_id }
        ensures appended { Appended S.same (S.content B.limit) (S.shard self.now.table.slots)
            D.operations seat.old.me (values_of seat.old.me.1) seat.new.me }
    {
        self.board.shared.load::<Append<D, B>>(seat, 8 * shard);
    }

    // Releases the lock of the shard that was taken last.
    fn release_one(&self, shard: usize, seat: &mut LockSeat<T, S>)
        requires table { seat.old.table_id ≡ self.now.table }
        requires holds { Holds (S.content self.now.limit) (S.shard self.now.table.slots)
            seat.old.me }
        requires last { (others : List ℕ) × (numbers (held_of seat.old.me.0) ≡ shard ∷ others) }
        requires within { shard < self.now.table.slots }
        ensures table { seat.new.table_id ≡ seat.old.table_id }
        ensures released { seat.new.me
            ≡ (without_last (S.shard self.now.table.slots) seat.old.me.0, rest seat.old.me.1) }
    {
        self.board.shared.swap::<Release>(seat, 8 * shard, FREE);
    }

    // Releases the locks of these shards, which are all that the seat holds.
    fn release_all(&self, shards: &[usize], seat: &mut LockSeat<T, S>)
        requires table { seat.old.table_id ≡ self.now.table }
        requires holds { Holds (S.content self.now.limit) (S.shard self.now.table.slots)
            seat.old.me }
        requires shards { numbers (held_of seat.old.me.0) ≡ reverse shards.now }
        requires within { All (λ shard. shard < self.now.table.slots) shards.now }
        ensures table { seat.new.table_id ≡ seat.old.table_id }
        ensures idle { IsIdle seat.new.me }
        ensures caller { caller_of seat.new.me.0 ≡ caller_of seat.old.me.0 }
        ensures seen { seen_of seat.new.me.0 ≡ seen_of seat.old.me.0 }
    {
        let Some((last, others)) = shards.split_last() else {
            return;
        };
        self.release_one(*last, seat);
        self.release_all(others, seat);
    }
}
