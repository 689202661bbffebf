//! Removals and exchanges.
ghost use Rattle.std.specs.Prelude.{◌≡◌, IfOk, IfSome, OnErr};
ghost use Rattle.std.specs.Option.{option_map};
ghost use Rattle.live_nodes.specs.Known.{MadeCall};
ghost use Rattle.live_growth.specs.Calls.{IsReady};
ghost use Rattle.live_updates.specs.Entries.{removed, swapped};
ghost use Rattle.live_updates.specs.inner.Lookups.{swap_of, EndsBy};

use crate::leaf::exchange_here;
use crate::lookup::{Site, seek};
use live_growth::link::Room;
use live_growth::map::{Busy, Congee, Guard, TRIES};
use live_reads::path::{Nodes, Seat};
use std::marker::Brand;

/// An exchange: who makes it, with which key and values. A caller picks it.
pub trait Swaps {
    ghost use Rattle.live_updates.specs.inner.Lookups.{Swap};

    ghost swap: { Swap };
}

impl Swaps for Brand {
    ghost use Rattle.std.specs.Prelude.{None};
    ghost use Rattle.live_updates.specs.inner.Lookups.{swap_of};

    ghost swap = { swap_of 0 0 0 None };
}

/// Removes a key: the value that it had. `None` where a writer came in between.
fn remove_once(nodes: &Nodes, key: u64, room: &mut Room, seat: &mut Seat) -> Option<Option<u64>>
    requires book { seat.old.book ≡ nodes.now }
    requires ready { IsReady seat.old.view room.old }
    ensures book { seat.new.book ≡ seat.old.book }
    ensures id { seat.new.id ≡ seat.old.id }
    ensures ready { IsReady seat.new.view room.new }
    ensures ends { EndsBy seat.old.id (option_map (removed seat.old.id key) result)
        seat.old.view seat.new.view }
{
    match seek::<Brand>(nodes, key, &mut room.last, seat)? {
        Site::Absent => Some(None),
        Site::At(leaf, value) => {
            if exchange_here::<Brand>(nodes, leaf, key, Some(value), None, room, seat).is_some() {
                return None;
            }
            Some(Some(value))
        }
    }
}

/// Replaces a key's value, or removes it, if it is the expected one. `None` where a writer came in between.
fn exchange_once<X: Swaps>(
    nodes: &Nodes,
    key: u64,
    old: u64,
    new: Option<u64>,
    room: &mut Room,
    seat: &mut Seat,
) -> Option<Result<Option<u64>, Option<u64>>>
    requires book { seat.old.book ≡ nodes.now }
    requires swap { X.swap ≡ swap_of seat.old.id key old new }
    requires ready { IsReady seat.old.view room.old }
    ensures book { seat.new.book ≡ seat.old.book }
    ensures id { seat.new.id ≡ seat.old.id }
    ensures ready { IsReady seat.new.view room.new }
    ensures ends { EndsBy seat.old.id (option_map (swapped seat.old.id key old new) result)
        seat.old.view seat.new.view }
    ensures stored { IfSome result (λ answer. IfOk answer (λ stored. stored ≡ new)) }
{
    match seek::<Brand>(nodes, key, &mut room.last, seat)? {
        Site::Absent => Some(Err(None)),
        Site::At(leaf, value) => {
            if value != old {
                return Some(Err(Some(value)));
            }
            if exchange_here::<Brand>(nodes, leaf, key, Some(old), new, room, seat).is_some() {
                return None;
            }
            Some(Ok(new))
        }
    }
}

/// Removes a key: the value that it had. Takes no memory. A leaf without keys is taken out of the map, and so are the nodes
/// above it that have no others below them.
pub fn remove(map: &Congee, guard: &mut Guard, key: u64) -> Result<Option<u64>, Busy>
    requires { guard.old.book ≡ map.now }
    ensures made { IfOk result (λ before. MadeCall guard.old
        (removed guard.old.caller key before) guard.new) }
    ensures busy { OnErr result (guard.new ≡ guard.old) }
{
    for _ in 0..TRIES {
        if let Some(before) = remove_once(&map.nodes, key, &mut guard.room, &mut guard.seat) {
            return Ok(before);
        }
    }
    Err(Busy)
}

/// Replaces a key's value by `new`, or removes it for `None`, if it is `old`. `Ok` with `new`, or `Err` with the current value,
/// or with `None` where the key is absent. Takes no memory.
pub fn compare_exchange(
    map: &Congee,
    guard: &mut Guard,
    key: u64,
    old: u64,
    new: Option<u64>,
) -> Result<Result<Option<u64>, Option<u64>>, Busy>
    requires { guard.old.book ≡ map.now }
    ensures made { IfOk result (λ answer. MadeCall guard.old
        (swapped guard.old.caller key old new answer) guard.new) }
    ensures stored { IfOk result (λ answer. IfOk answer (λ stored. stored ≡ new)) }
    ensures busy { OnErr result (guard.new ≡ guard.old) }
{
    for _ in 0..TRIES {
        if let Some(answer) = exchange_once::<Brand>(
            &map.nodes,
            key,
            old,
            new,
            &mut guard.room,
            &mut guard.seat,
        ) {
            return Ok(answer);
        }
    }
    Err(Busy)
}
