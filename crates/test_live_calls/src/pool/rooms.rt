//! Rooms by number: whose words a new guard has for its nodes.

ghost use Rattle.std.specs.Prelude.{◌≡◌};

use crate::calls::all_hold;
use live_growth::free_nodes::FreeNodes;
use live_growth::link::Room;
use live_growth::map::Guard;
use live_pool::pool::Pool;
use std::alloc::Global;
use std::process::Abort;
use std::test::Fail;
use std::thread::{Threads, join};

// The root's words come first, then a segment with the root's node. What is left of it is the first guard's.
const START: u64 = 3 + 263;

const COUNT: u64 = SEGMENT - 263;

// How many words each of the first segments has.
const SEGMENT: u64 = 512;

// How many keys each segment has.
const KEYS: u64 = 65_536;

// How many guards there are at once.
const GUARDS: u64 = 20;

// How often each thread has a guard.
const TURNS: u64 = 1_000;

// Whether the guard stores a new key, and reads it back.
fn has_stored(map: &Pool, alloc: Global, guard: &mut Guard, key: u64) -> bool
    requires { guard.old.book ≡ map.now }
    ensures { guard.new.book ≡ map.now }
{
    let before = map.insert(alloc, guard, key, key ^ 3);
    before == Ok(None) && map.map.get(guard, key) == Ok(Some(key ^ 3))
}

// The room of a new guard, which is dropped.
fn next_room(map: &Pool) -> Room {
    map.pin().room
}

// The room of a new guard, which stores a key and is given back.
fn given_back(map: &Pool, alloc: Global, key: u64) -> Option<Room> {
    let mut guard = map.pin();
    if !has_stored(map, alloc, &mut guard, key) {
        return None;
    }
    let room = guard.room;
    map.unpin(guard);
    Some(room)
}

// Each guard has the words that the one before it has left.
fn take_the_room(rt: &impl Abort, map: &Pool, room: Room, next: Room) {
    let steps = [
        room.start > START,
        room.left > 0,
        room.start.wrapping_add(room.left) == START.wrapping_add(COUNT),
        // Keys in other leaves take further words of the same room.
        next.start > room.start,
        next.start.wrapping_add(next.left) == START.wrapping_add(COUNT),
        // A guard has a room to itself: the next one has none.
        next_room(map) == next,
        next_room(map).left == 0,
    ];
    all_hold(rt, &steps);
}

#[test]
fn the_next_guard_has_the_room(rt: HostRuntime) -> Result<(), Fail> {
    let map = Pool::new(rt.alloc())?;
    let room = given_back(&map, rt.alloc(), 5).ok_or("no key is stored")?;
    let next = given_back(&map, rt.alloc(), 500).ok_or("no second key is stored")?;
    take_the_room(&rt, &map, room, next);
    Ok(())
}

// A guard stores a key, and is dropped.
fn dropped(map: &Pool, alloc: Global, key: u64) -> bool {
    let mut guard = map.pin();
    has_stored(map, alloc, &mut guard, key)
}

#[test]
fn a_guard_that_is_dropped_leaves_no_room(rt: HostRuntime) -> Result<(), Fail> {
    let map = Pool::new(rt.alloc())?;
    assert!(rt; dropped(&map, rt.alloc(), 5));
    assert!(rt; next_room(&map).left == 0);
    // One without a room isn't kept, and doesn't come before those that have one.
    let room = given_back(&map, rt.alloc(), 600).ok_or("no key is stored")?;
    map.unpin(map.map.pin());
    assert!(rt; next_room(&map) == room);
    Ok(())
}

// So many guards at once, each of which stores a key and is given back: how many have stored it.
fn all_stored(map: &Pool, alloc: Global, count: u64) -> u64 {
    if count == 0 {
        return 0;
    }
    let mut guard = map.pin();
    let stored = has_stored(map, alloc, &mut guard, count.wrapping_mul(1000));
    let others = all_stored(map, alloc, count - 1);
    map.unpin(guard);
    others.wrapping_add(stored as u64)
}

// So many new guards at once, which are dropped: how many have a room.
fn rooms(map: &Pool, count: u64) -> u64 {
    if count == 0 {
        return 0;
    }
    let guard = map.pin();
    let others = rooms(map, count - 1);
    others.wrapping_add((guard.room.left > 0) as u64)
}

#[test]
fn guards_at_once_have_rooms_of_their_own(rt: HostRuntime) -> Result<(), Fail> {
    let map = Pool::new(rt.alloc())?;
    assert!(rt; all_stored(&map, rt.alloc(), GUARDS) == GUARDS);
    assert!(rt; rooms(&map, 3 * GUARDS) == GUARDS);
    // (those were dropped with their rooms)
    assert!(rt; rooms(&map, GUARDS) == 0);
    Ok(())
}

// Whether a new guard, which is given back, stores a key. (A call may be busy while another thread has locked a node on its path.)
fn stored_by_another(map: &Pool, alloc: Global, key: u64) -> bool {
    let mut guard = map.pin();
    let stored = map.insert(alloc, &mut guard, key, key ^ 3).is_ok();
    map.unpin(guard);
    stored
}

// One guard after another stores a key, until so many are stored: how many are.
fn in_turn(map: &Pool, alloc: Global, first: u64) -> u64 {
    let mut stored = 0u64;
    for _ in 0..100_000_000u32 {
        if stored == TURNS {
            return stored;
        }
        let key = first.wrapping_add(stored.wrapping_mul(4));
        if stored_by_another(map, alloc, key) {
            stored = stored.wrapping_add(1);
        }
    }
    stored
}

// How many of those keys have the values that were stored.
fn read_back(map: &Pool, first: u64) -> u64 {
    let mut guard = map.pin();
    let mut there = 0u64;
    for turn in 0..TURNS {
        let key = first.wrapping_add(turn.wrapping_mul(4));
        if map.map.get(&mut guard, key) == Ok(Some(key ^ 3)) {
            there = there.wrapping_add(1);
        }
    }
    there
}

#[test]
fn a_thousand_guards_in_turn_have_one_room(rt: HostRuntime) -> Result<(), Fail> {
    let map = Pool::new(rt.alloc())?;
    assert!(rt; in_turn(&map, rt.alloc(), 0) == TURNS);
    assert!(rt; read_back(&map, 0) == TURNS);
    // Sixteen leaves take less than 16 * 500 words, so twenty segments have more than enough.
    assert!(rt; next_room(&map).start < 3 + 20 * KEYS);
    assert!(rt; next_room(&map).left == 0);
    Ok(())
}

// Two threads, each with a guard for each of its keys, in leaves of its own: how many keys are stored.
fn by_two<R: Threads + Sync>(rt: &R, alloc: Global, map: &Pool, first: u64) -> (u64, u64) {
    join(
        rt,
        || in_turn(map, alloc, first),
        || in_turn(map, alloc, first.wrapping_add(50_000)),
    )
}

#[test]
fn threads_share_rooms(rt: HostRuntime) -> Result<(), Fail> {
    let map = Pool::new(rt.alloc())?;
    for round in 0..4u64 {
        let first = round.wrapping_mul(100_000);
        assert!(rt; by_two(&rt, rt.alloc(), &map, first) == (TURNS, TURNS));
        assert!(rt; read_back(&map, first) == TURNS);
        assert!(rt; read_back(&map, first.wrapping_add(50_000)) == TURNS);
    }
    // (a thread that finds the other at the list goes without now and then)
    assert!(rt; rooms(&map, 1_000) < 100);
    Ok(())
}

// Keys whose leaves are apart.
const LEAVES: u64 = 16;

// Stores keys in leaves of their own and removes them again: how many were there.
fn come_and_go(map: &Pool, alloc: Global, guard: &mut Guard) -> u64
    requires { guard.old.book ≡ map.now }
    ensures { guard.new.book ≡ map.now }
{
    let mut there = 0u64;
    for leaf in 0..LEAVES {
        let _ = has_stored(map, alloc, guard, leaf.wrapping_mul(256));
    }
    for leaf in 0..LEAVES {
        let key = leaf.wrapping_mul(256);
        if map.remove(guard, key) == Ok(Some(key ^ 3)) {
            there = there.wrapping_add(1);
        }
    }
    there
}

// A new guard stores keys in leaves of their own: how many it has stored, and its room.
fn by_another(map: &Pool, alloc: Global) -> (u64, Room) {
    let mut guard = map.pin();
    let mut stored = 0u64;
    for leaf in 0..LEAVES {
        let key = leaf.wrapping_mul(256).wrapping_add(1);
        if has_stored(map, alloc, &mut guard, key) {
            stored = stored.wrapping_add(1);
        }
    }
    let room = guard.room;
    (stored, room)
}

// A guard stores and removes its keys twice, with the same nodes.
fn go_twice(rt: &impl Abort, alloc: Global, map: &Pool, guard: &mut Guard)
    requires { guard.old.book ≡ map.now }
    ensures { guard.new.book ≡ map.now }
{
    let there = come_and_go(map, alloc, guard);
    let room = guard.room;
    let steps = [
        there == LEAVES,
        room.spare.n4 > 0,
        room.spare.more == 0,
        // Where the second key parts from the first, a call needs two of one form.
        room.spare.second > 0,
        come_and_go(map, alloc, guard) == LEAVES,
        room.left == guard.room.left,
    ];
    all_hold(rt, &steps);
}

// Another guard has a segment of its own. All its leaves but two are those of the first guard. It makes
// those, and an inner node for sixteen, since the first guard keeps its own.
fn go_by_another(rt: &impl Abort, alloc: Global, map: &Pool) {
    let (stored, room) = by_another(map, alloc);
    let used = room.start.wrapping_sub(3 + KEYS);
    let steps = [
        stored == LEAVES,
        used < 40,
        used.wrapping_add(room.left) == SEGMENT,
    ];
    all_hold(rt, &steps);
}

#[test]
fn nodes_that_are_taken_out_are_the_next_of_any_guard(rt: HostRuntime) -> Result<(), Fail> {
    let map = Pool::new(rt.alloc())?;
    let mut guard = map.pin();
    go_twice(&rt, rt.alloc(), &map, &mut guard);
    go_by_another(&rt, rt.alloc(), &map);
    Ok(())
}

// A window of multiples of a number moves on by so many steps: how many keys came and went.
fn move_on(map: &Pool, alloc: Global, guard: &mut Guard, by: u64, from: u64, to: u64) -> u64
    requires { guard.old.book ≡ map.now }
    ensures { guard.new.book ≡ map.now }
{
    let mut moved = 0u64;
    for step in from..to {
        let first = step.wrapping_mul(by);
        let came = has_stored(map, alloc, guard, step.wrapping_add(100).wrapping_mul(by));
        let went = map.remove(guard, first);
        if came && (step < 100 || went == Ok(Some(first ^ 3))) {
            moved = moved.wrapping_add(1);
        }
    }
    moved
}

#[test]
fn a_window_that_moves_on_stays_in_its_room(rt: HostRuntime) -> Result<(), Fail> {
    let map = Pool::new(rt.alloc())?;
    let mut guard = map.pin();
    assert!(rt; move_on(&map, rt.alloc(), &mut guard, 1, 0, 20_000) == 20_000);
    let room = guard.room;
    // (two leaves of the largest form lie in a segment each)
    assert!(rt; room.start < 3 + 4 * KEYS);
    Ok(())
}

// Its multiples spread over all keys.
const SPREAD: u64 = 0x9e37_79b9_7f4a_7c15;

fn move_spread_keys(rt: &impl Abort, alloc: Global, map: &Pool, guard: &mut Guard)
    requires { guard.old.book ≡ map.now }
{
    let first = move_on(map, alloc, guard, SPREAD, 0, 1_000);
    let room = guard.room;
    let steps = [
        first == 1_000,
        move_on(map, alloc, guard, SPREAD, 1_000, 100_000) == 99_000,
        guard.room.start == room.start,
        guard.room.left == room.left,
    ];
    all_hold(rt, &steps);
}

#[test]
fn a_window_of_spread_keys_stays_in_its_room(rt: HostRuntime) -> Result<(), Fail> {
    let map = Pool::new(rt.alloc())?;
    move_spread_keys(&rt, rt.alloc(), &map, &mut map.pin());
    Ok(())
}

// A new guard replaces a value: whether it has no room and no node then, as before.
fn replaces_alone(map: &Pool, alloc: Global, key: u64) -> bool {
    let mut guard = map.pin();
    let before = map.insert(alloc, &mut guard, key, 8);
    before == Ok(Some(key ^ 3)) && guard.room.left == 0 && guard.room.spare == FreeNodes::none()
}

#[test]
fn an_overwrite_takes_no_free_node(rt: HostRuntime) -> Result<(), Fail> {
    let map = Pool::new(rt.alloc())?;
    let mut guard = map.pin();
    assert!(rt; come_and_go(&map, rt.alloc(), &mut guard) == LEAVES);
    assert!(rt; has_stored(&map, rt.alloc(), &mut guard, 5));
    assert!(rt; replaces_alone(&map, rt.alloc(), 5));
    Ok(())
}
