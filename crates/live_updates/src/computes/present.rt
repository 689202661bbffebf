//! The calls. A closure is called while nothing is locked, and what it returned is stored if the key still has the value that
//! it was called with. Otherwise it is called again.
ghost use Rattle.std.specs.Prelude.{◌≡◌, ℕ, IfOk, IfSome, OnErr, unwrap_or};
ghost use Rattle.std.specs.Option.{option_map};
ghost use Rattle.live_nodes.specs.Known.{MadeCall};
ghost use Rattle.live_growth.specs.Calls.{IsReady};
ghost use Rattle.live_updates.specs.inner.Lookups.{EndsBy};
ghost use Rattle.live_updates.specs.Closures.{Reaches, EndsWithCall};
ghost use Rattle.live_updates.specs.ClosureEntries.{computed_with, inserted_with, sum_with};
ghost use Rattle.live_updates.specs.inner.Ends.{Stores};

use crate::computes::absent::enter;
use crate::leaf::{exchange_here, update_here};
use crate::lookup::{Site, seek};
use live_growth::link::Room;
use live_growth::map::{Busy, Congee, Guard, Refusal, TRIES};
use live_growth::refill::Refills;
use live_reads::path::{Nodes, Seat};
use std::marker::Brand;

/// Stores what a closure returns for a present key's value, once. What it was called with and what it returned, or `Some(None)`
/// where the key is absent. `None` where a writer came in between.
fn present_once<F: FnMut(u64) -> Option<u64>>(
    nodes: &Nodes,
    key: u64,
    room: &mut Room,
    seat: &mut Seat,
    f: &mut F,
) -> Option<Option<(u64, Option<u64>)>>
    requires book { seat.old.book ≡ nodes.now }
    requires ready { IsReady seat.old.view room.old }
    requires callable { F.IsAlwaysCallable f.old }
    ensures callable { F.IsAlwaysCallable f.new }
    ensures reached { Reaches F.step f.old f.new }
    ensures book { seat.new.book ≡ seat.old.book }
    ensures id { seat.new.id ≡ seat.old.id }
    ensures ready { IsReady seat.new.view room.new }
    ensures ends { EndsBy seat.old.id (option_map (computed_with seat.old.id key) result)
        seat.old.view seat.new.view }
    ensures asked { IfSome result (λ both. IfSome both (λ pair.
        EndsWithCall F.step f.old pair.0 pair.1 f.new)) }
{
    match seek::<Brand>(nodes, key, &mut room.last, seat)? {
        Site::Absent => Some(None),
        Site::At(leaf, value) => {
            let new = f(value);
            if exchange_here::<Brand>(nodes, leaf, key, Some(value), new, room, seat).is_some() {
                return None;
            }
            Some(Some((value, new)))
        }
    }
}

/// Stores what a closure returns for a key's value, once. The value that it was called with. `None` where a writer came in
/// between.
fn always_once<F: FnMut(Option<u64>) -> u64, R: Refills>(
    nodes: &Nodes,
    from: &R,
    key: u64,
    room: &mut Room,
    seat: &mut Seat,
    f: &mut F,
) -> Result<Option<Option<u64>>, Refusal>
    requires book { seat.old.book ≡ nodes.now }
    requires serves { R.serves from.now nodes.now }
    requires ready { IsReady seat.old.view room.old }
    requires callable { F.IsAlwaysCallable f.old }
    ensures callable { F.IsAlwaysCallable f.new }
    ensures reached { Reaches F.step f.old f.new }
    ensures book { seat.new.book ≡ seat.old.book }
    ensures id { seat.new.id ≡ seat.old.id }
    ensures ready { IsReady seat.new.view room.new }
    ensures stores { Stores seat.old.id key (λ before new. EndsWithCall F.step f.old before new f.new) result
        seat.old.view seat.new.view }
{
    match seek::<Brand>(nodes, key, &mut room.last, seat) {
        Some(Site::At(leaf, value)) => {
            let new = f(Some(value));
            if update_here::<Brand>(leaf, key, Some(value), Some(new), seat).is_some() {
                return Ok(None);
            }
            Ok(Some(Some(value)))
        }
        Some(Site::Absent) => {
            let new = f(None);
            if !enter::<Brand, R>(nodes, from, key, new, room, seat)? {
                return Ok(None);
            }
            Ok(Some(None))
        }
        None => Ok(None),
    }
}

/// Gives an absent key a value, once. The value that is there already. `None` where a writer came in between.
fn keep_once<R: Refills>(
    nodes: &Nodes,
    from: &R,
    key: u64,
    value: u64,
    room: &mut Room,
    seat: &mut Seat,
) -> Result<Option<Option<u64>>, Refusal>
    requires book { seat.old.book ≡ nodes.now }
    requires serves { R.serves from.now nodes.now }
    requires ready { IsReady seat.old.view room.old }
    ensures book { seat.new.book ≡ seat.old.book }
    ensures id { seat.new.id ≡ seat.old.id }
    ensures ready { IsReady seat.new.view room.new }
    ensures stores { Stores seat.old.id key (λ found new. new ≡ unwrap_or found value) result
        seat.old.view seat.new.view }
{
    match seek::<Brand>(nodes, key, &mut room.last, seat) {
        Some(Site::At(_leaf, found)) => Ok(Some(Some(found))),
        Some(Site::Absent) => {
            if !enter::<Brand, R>(nodes, from, key, value, room, seat)? {
                return Ok(None);
            }
            Ok(Some(None))
        }
        None => Ok(None),
    }
}

/// Adds a number to a key's value, once. The value before. `None` where a writer came in between.
fn add_once<R: Refills>(
    nodes: &Nodes,
    from: &R,
    key: u64,
    number: u64,
    room: &mut Room,
    seat: &mut Seat,
) -> Result<Option<Option<u64>>, Refusal>
    requires book { seat.old.book ≡ nodes.now }
    requires serves { R.serves from.now nodes.now }
    requires ready { IsReady seat.old.view room.old }
    ensures book { seat.new.book ≡ seat.old.book }
    ensures id { seat.new.id ≡ seat.old.id }
    ensures ready { IsReady seat.new.view room.new }
    ensures stores { Stores seat.old.id key (λ before new. new ≡ sum_with before number) result
        seat.old.view seat.new.view }
{
    match seek::<Brand>(nodes, key, &mut room.last, seat) {
        Some(Site::At(leaf, value)) => {
            let new = value.wrapping_add(number);
            if update_here::<Brand>(leaf, key, Some(value), Some(new), seat).is_some() {
                return Ok(None);
            }
            Ok(Some(Some(value)))
        }
        Some(Site::Absent) => {
            if !enter::<Brand, R>(nodes, from, key, number, room, seat)? {
                return Ok(None);
            }
            Ok(Some(None))
        }
        None => Ok(None),
    }
}

/// If the key is present, calls the closure with its value, and stores the answer. For `None` it removes the key. Returns both
/// values, the old and the new one. The closure may be called again, and the last call counts. It may have been called before
/// `Busy`.
pub fn compute_if_present<F: FnMut(u64) -> Option<u64>>(
    map: &Congee,
    guard: &mut Guard,
    key: u64,
    f: &mut F,
) -> Result<Option<(u64, Option<u64>)>, Busy>
    requires map { guard.old.book ≡ map.now }
    requires callable { F.IsAlwaysCallable f.old }
    ensures callable { F.IsAlwaysCallable f.new }
    ensures reached { Reaches F.step f.old f.new }
    ensures made { IfOk result (λ both. MadeCall guard.old
        (computed_with guard.old.caller key both) guard.new) }
    ensures asked { IfOk result (λ both. IfSome both (λ pair.
        EndsWithCall F.step f.old pair.0 pair.1 f.new)) }
    ensures busy { OnErr result (guard.new ≡ guard.old) }
{
    for _ in 0..TRIES {
        if let Some(both) = present_once(&map.nodes, key, &mut guard.room, &mut guard.seat, f) {
            return Ok(both);
        }
    }
    Err(Busy)
}

/// Calls the closure with the key's value, if it is present, and stores the answer. Returns the value before. The closure may
/// be called again, and the last call counts. It may have been called before a refusal.
pub fn compute_or_insert<F: FnMut(Option<u64>) -> u64, R: Refills>(
    map: &Congee,
    from: &R,
    guard: &mut Guard,
    key: u64,
    f: &mut F,
) -> Result<Option<u64>, Refusal>
    requires map { guard.old.book ≡ map.now }
    requires serves { R.serves from.now map.now }
    requires callable { F.IsAlwaysCallable f.old }
    ensures callable { F.IsAlwaysCallable f.new }
    ensures reached { Reaches F.step f.old f.new }
    ensures made { IfOk result (λ before. (new : ℕ)
        × MadeCall guard.old (inserted_with guard.old.caller key before new) guard.new
        × EndsWithCall F.step f.old before new f.new) }
    ensures refused { OnErr result (guard.new ≡ guard.old) }
{
    for _ in 0..TRIES {
        let done = always_once(&map.nodes, from, key, &mut guard.room, &mut guard.seat, f)?;
        if let Some(before) = done {
            return Ok(before);
        }
    }
    Err(Refusal::Busy)
}

/// Gives the key the value if it is absent. Returns the value that was present. No lock is taken for a present key.
pub fn get_or_insert<R: Refills>(
    map: &Congee,
    from: &R,
    guard: &mut Guard,
    key: u64,
    value: u64,
) -> Result<Option<u64>, Refusal>
    requires map { guard.old.book ≡ map.now }
    requires serves { R.serves from.now map.now }
    ensures made { IfOk result (λ found. MadeCall guard.old
        (inserted_with guard.old.caller key found (unwrap_or found value)) guard.new) }
    ensures refused { OnErr result (guard.new ≡ guard.old) }
{
    for _ in 0..TRIES {
        let done = keep_once(
            &map.nodes,
            from,
            key,
            value,
            &mut guard.room,
            &mut guard.seat,
        )?;
        if let Some(found) = done {
            return Ok(found);
        }
    }
    Err(Refusal::Busy)
}

/// Adds a number to the key's value, modulo 2 to the 64. An absent key gets the number itself. Returns the value before.
pub fn add<R: Refills>(
    map: &Congee,
    from: &R,
    guard: &mut Guard,
    key: u64,
    number: u64,
) -> Result<Option<u64>, Refusal>
    requires map { guard.old.book ≡ map.now }
    requires serves { R.serves from.now map.now }
    ensures made { IfOk result (λ before. MadeCall guard.old
        (inserted_with guard.old.caller key before (sum_with before number)) guard.new) }
    ensures refused { OnErr result (guard.new ≡ guard.old) }
{
    for _ in 0..TRIES {
        let done = add_once(
            &map.nodes,
            from,
            key,
            number,
            &mut guard.room,
            &mut guard.seat,
        )?;
        if let Some(before) = done {
            return Ok(before);
        }
    }
    Err(Refusal::Busy)
}
