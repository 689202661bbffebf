//! A hold of all shards: what their maps are together.
//!
//! Tested in `tools/c-library`.

ghost use Rattle.std.specs.Prelude.{◌≡◌, ◌==◌, ◌≤◌, ◌*◌, ℕ, [], List, Some, IfSome, IsTrue, IsFalse, length, reverse};
ghost use Rattle.share_rule.specs.inner.Hold.{StepsBy};
ghost use Rattle.share_shards.specs.inner.SeatView.{ShardSeat};
ghost use Rattle.share_shards.specs.inner.Steps.{HeldBy, IsIdle, pairs_of};
ghost use Rattle.share_visits.specs.Charged.{IsChargeOfAll, sum_of};
ghost use Rattle.share_visits.specs.Near.{near_of};
ghost use Rattle.share_visits.specs.Whole.{Contains, IsCount, TookAll, down, shard_of};
ghost use Rattle.share_visits.specs.declared.part.Part.{Part};
ghost use Rattle.spec_map.specs.Map.{Pairs, without};
ghost use Rattle.spec_map.specs.Near.{pair_near, without_pair};

use crate::near::{Near, key_of};
use crate::one::{nearest_at, visit_one};
use crate::part::{MapShard, PartLock, PartSeat, shard_of_key};
use crate::visits::{Charge, Clear, Find, Remove, Tally};
use share_shards::rule::Done;

// The numbers of 64 shards.
const ALL: [usize; 64] = [
    0, 1, 2, 3, 4, 5, 6, 7, 8, 9, 10, 11, 12, 13, 14, 15, 16, 17, 18, 19, 20, 21, 22, 23, 24, 25,
    26, 27, 28, 29, 30, 31, 32, 33, 34, 35, 36, 37, 38, 39, 40, 41, 42, 43, 44, 45, 46, 47, 48, 49,
    50, 51, 52, 53, 54, 55, 56, 57, 58, 59, 60, 61, 62, 63,
];

// The numbers of all shards.
fn numbers(shards: usize) -> &'static [usize]
    requires { IsCount shards }
    ensures { reverse result.now ≡ down shards }
{
    if shards == 1 { &ALL[..1] } else { &ALL }
}

pub(crate) fn all_shards<M: MapShard + Drop>(lock: &PartLock<M>) -> &'static [usize]
    requires { IsCount lock.now.table.slots }
    ensures { reverse result.now ≡ down lock.now.table.slots }
{
    numbers(lock.shards())
}

/// Takes the locks of all shards, each at one of so many tries. `false` if one stays taken, and changes nothing.
#[tactic(auto, using(crate::proofs::Numbers::below_all))]
pub fn take_all<M: MapShard + Drop>(lock: &PartLock<M>, seat: &mut PartSeat<M>, tries: u32) -> bool
    requires table { seat.old.table_id ≡ lock.now.table }
    requires shards { IsCount lock.now.table.slots }
    requires idle { IsIdle seat.old.me }
    ensures table { seat.new.table_id ≡ seat.old.table_id }
    ensures took { IsTrue result → TookAll M.pairs M.limit lock.now seat.old.me seat.new.me }
    ensures all { IsTrue result
        → Contains M.pairs M.limit lock.now (pairs_of seat.new.me.0) seat.new.me.1 }
    ensures missed { IsFalse result → seat.new.me ≡ seat.old.me }
{
    lock.take(all_shards::<M>(lock), seat, tries)
}

/// Appends to the history what the call picks as done by this work, and releases the locks of all shards.
#[tactic(auto, using(crate::proofs::Numbers::below_all))]
pub fn release_all<D: Done<u64>, M: MapShard + Drop, W>(
    lock: &PartLock<M>,
    seat: &mut PartSeat<M>,
    work: &W,
)
    requires table { seat.old.table_id ≡ lock.now.table }
    requires shards { IsCount lock.now.table.slots }
    requires may { (m : ShardSeat ℕ (Part M)) × (n : ShardSeat ℕ (Part M)) × (end : Pairs ℕ)
        × TookAll M.pairs M.limit lock.now m n × (seat.old.me.0 ≡ n.0)
        × Contains M.pairs M.limit lock.now end seat.old.me.1
        × StepsBy (λ a b. a == b) D.operations (pairs_of n.0) end }
    ensures table { seat.new.table_id ≡ seat.old.table_id }
    ensures held { (m n : ShardSeat ℕ (Part M)) → TookAll M.pairs M.limit lock.now m n
        → seat.old.me.0 ≡ n.0 → HeldBy (λ a b. a == b) D.operations m seat.new.me }
    ensures idle { IsIdle seat.new.me }
{
    lock.release::<D, W>(all_shards::<M>(lock), seat, work);
}

/// How many pairs there are.
pub fn pair_count<M: MapShard + Drop>(lock: &PartLock<M>, seat: &mut PartSeat<M>) -> u128
    requires table { seat.old.table_id ≡ lock.now.table }
    requires shards { IsCount lock.now.table.slots }
    requires all { (all : Pairs ℕ) × Contains M.pairs M.limit lock.now all seat.old.me.1 }
    ensures table { seat.new.table_id ≡ seat.old.table_id }
    ensures same { seat.new.me ≡ seat.old.me }
    ensures count { (all : Pairs ℕ) → Contains M.pairs M.limit lock.now all seat.old.me.1
        → result ≡ length all }
{
    let mut tally = Tally { pairs: 0 };
    lock.each::<(), Tally>(all_shards::<M>(lock), seat, &mut tally, &mut []);
    tally.pairs
}

/// What the maps of all shards are charged, in bytes. It saturates at `u128::MAX`, and is within their limits.
pub fn charged<M: MapShard + Drop>(lock: &PartLock<M>, seat: &mut PartSeat<M>) -> u128
    requires table { seat.old.table_id ≡ lock.now.table }
    requires shards { IsCount lock.now.table.slots }
    requires all { (all : Pairs ℕ) × Contains M.pairs M.limit lock.now all seat.old.me.1 }
    ensures table { seat.new.table_id ≡ seat.old.table_id }
    ensures same { seat.new.me ≡ seat.old.me }
    ensures bytes { (all : Pairs ℕ) → Contains M.pairs M.limit lock.now all seat.old.me.1
        → (maps : List M) × (length maps ≡ lock.now.table.slots)
        × (length all ≡ sum_of (λ map. length (M.pairs map)) maps)
        × IsChargeOfAll M.charges maps result }
    ensures within { result ≤ lock.now.table.slots * lock.now.limit }
{
    let mut charge = Charge { bytes: 0 };
    lock.each::<(), Charge>(all_shards::<M>(lock), seat, &mut charge, &mut []);
    charge.bytes
}

/// The pair there, if it is in the run of 256 keys that the place is in. No other shard is asked for it.
pub(crate) fn nearest_in_run<M: MapShard + Drop>(
    lock: &PartLock<M>,
    seat: &mut PartSeat<M>,
    near: Near,
) -> Option<(u64, u64)>
    requires table { seat.old.table_id ≡ lock.now.table }
    requires shards { IsCount lock.now.table.slots }
    requires all { (all : Pairs ℕ) × Contains M.pairs M.limit lock.now all seat.old.me.1 }
    ensures table { seat.new.table_id ≡ seat.old.table_id }
    ensures same { seat.new.me ≡ seat.old.me }
    ensures found { IfSome result (λ pair. (all : Pairs ℕ)
        → Contains M.pairs M.limit lock.now all seat.old.me.1
        → pair_near all (near_of near) ≡ Some pair) }
{
    let key = key_of(near)?;
    let pair = nearest_at(lock, seat, shard_of_key(key, lock.shards()), near)?;
    if pair.0 / 256 == key / 256 {
        Some(pair)
    } else {
        None
    }
}

// The pair there, by a look into each shard.
fn nearest_of_all<M: MapShard + Drop>(
    lock: &PartLock<M>,
    seat: &mut PartSeat<M>,
    near: Near,
) -> Option<(u64, u64)>
    requires table { seat.old.table_id ≡ lock.now.table }
    requires shards { IsCount lock.now.table.slots }
    requires all { (all : Pairs ℕ) × Contains M.pairs M.limit lock.now all seat.old.me.1 }
    ensures table { seat.new.table_id ≡ seat.old.table_id }
    ensures same { seat.new.me ≡ seat.old.me }
    ensures pair { (all : Pairs ℕ) → Contains M.pairs M.limit lock.now all seat.old.me.1
        → result ≡ pair_near all (near_of near) }
{
    let mut find = Find { near, pair: None };
    lock.each::<(), Find>(all_shards::<M>(lock), seat, &mut find, &mut []);
    find.pair
}

/// The pair there.
pub fn nearest<M: MapShard + Drop>(
    lock: &PartLock<M>,
    seat: &mut PartSeat<M>,
    near: Near,
) -> Option<(u64, u64)>
    requires table { seat.old.table_id ≡ lock.now.table }
    requires shards { IsCount lock.now.table.slots }
    requires all { (all : Pairs ℕ) × Contains M.pairs M.limit lock.now all seat.old.me.1 }
    ensures table { seat.new.table_id ≡ seat.old.table_id }
    ensures same { seat.new.me ≡ seat.old.me }
    ensures pair { (all : Pairs ℕ) → Contains M.pairs M.limit lock.now all seat.old.me.1
        → result ≡ pair_near all (near_of near) }
{
    if lock.shards() > 1 {
        let found = nearest_in_run(lock, seat, near);
        if found.is_some() {
            return found;
        }
    }
    nearest_of_all(lock, seat, near)
}

// Removes the pair at the key, if there is one.
fn remove_key<M: MapShard + Drop>(lock: &PartLock<M>, seat: &mut PartSeat<M>, key: u64)
    requires table { seat.old.table_id ≡ lock.now.table }
    requires shards { IsCount lock.now.table.slots }
    requires all { (all : Pairs ℕ) × Contains M.pairs M.limit lock.now all seat.old.me.1 }
    ensures table { seat.new.table_id ≡ seat.old.table_id }
    ensures view { seat.new.me.0 ≡ seat.old.me.0 }
    ensures left { (all : Pairs ℕ) → Contains M.pairs M.limit lock.now all seat.old.me.1
        → Contains M.pairs M.limit lock.now (without all key) seat.new.me.1 }
{
    let shard = shard_of_key(key, lock.shards());
    let mut remove = Remove { key };
    visit_one::<(), M, Remove>(lock, seat, shard, &mut remove, &mut []);
}

/// Removes the pair there, if there is one, and returns it.
pub fn pop<M: MapShard + Drop>(
    lock: &PartLock<M>,
    seat: &mut PartSeat<M>,
    near: Near,
) -> Option<(u64, u64)>
    requires table { seat.old.table_id ≡ lock.now.table }
    requires shards { IsCount lock.now.table.slots }
    requires all { (all : Pairs ℕ) × Contains M.pairs M.limit lock.now all seat.old.me.1 }
    ensures table { seat.new.table_id ≡ seat.old.table_id }
    ensures view { seat.new.me.0 ≡ seat.old.me.0 }
    ensures pair { (all : Pairs ℕ) → Contains M.pairs M.limit lock.now all seat.old.me.1
        → result ≡ pair_near all (near_of near) }
    ensures left { (all : Pairs ℕ) → Contains M.pairs M.limit lock.now all seat.old.me.1
        → Contains M.pairs M.limit lock.now (without_pair all result) seat.new.me.1 }
{
    let pair = nearest(lock, seat, near);
    if let Some((key, _)) = pair {
        remove_key(lock, seat, key);
    }
    pair
}

/// Removes all pairs.
pub fn clear<M: MapShard + Drop>(lock: &PartLock<M>, seat: &mut PartSeat<M>)
    requires table { seat.old.table_id ≡ lock.now.table }
    requires shards { IsCount lock.now.table.slots }
    requires all { (all : Pairs ℕ) × Contains M.pairs M.limit lock.now all seat.old.me.1 }
    ensures table { seat.new.table_id ≡ seat.old.table_id }
    ensures view { seat.new.me.0 ≡ seat.old.me.0 }
    ensures none { Contains M.pairs M.limit lock.now [] seat.new.me.1 }
{
    let mut clear = Clear {};
    lock.each::<(), Clear>(all_shards::<M>(lock), seat, &mut clear, &mut []);
}
