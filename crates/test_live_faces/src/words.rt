//! Keys and values of types of their own, by one thread.

ghost use Rattle.std.specs.Prelude.{◌*◌, ◌/◌, ◌%◌, ◌^◌, ◌≡◌};

use crate::steps::all_hold;
use live_faces::live::{Busy, Congee, Guard, Refusal, meet};
use spec_map::traits::Word;
use std::alloc::Global;
use std::process::Abort;
use std::sync::Wait;
use std::test::Fail;

/// Written as its value divided by ten; n is read back as 10n.
#[derive(Clone, Copy, Debug, PartialEq, Eq)]
struct Tens(u64);

impl Word for Tens {
    ghost number = { λ t. t.0 / 10 };

    ghost of_number = { λ n. record { 0 = (n * 10) % 2 ^ 64 } };

    fn from_u64(n: u64) -> Tens {
        Tens(n.wrapping_mul(10))
    }

    fn into_u64(self) -> u64 {
        self.0 / 10
    }
}

type Map = Congee<Tens, Tens>;

// What an insertion returns.
fn put(
    map: &Map,
    alloc: Global,
    guard: &mut Guard,
    key: u64,
    value: u64,
) -> Result<Option<Tens>, Refusal>
    requires { guard.old.book ≡ map.now }
    ensures { guard.new.book ≡ map.now }
{
    map.try_insert(alloc, guard, Tens(key), Tens(value))
}

// What a look-up returns.
fn looked(map: &Map, guard: &mut Guard, key: u64) -> Result<Option<Tens>, Busy>
    requires { guard.old.book ≡ map.now }
    ensures { guard.new.book ≡ map.now }
{
    map.try_get(guard, &Tens(key))
}

// Keys, values, and what an insertion of them returns in turn.
const ROWS: [(Tens, Tens, Option<Tens>); 5] = [
    (Tens(12), Tens(70), None),
    (Tens(17), Tens(89), Some(Tens(70))),
    (Tens(20), Tens(5), None),
    (Tens(29), Tens(5), Some(Tens(0))),
    (Tens(10), Tens(11), Some(Tens(80))),
];

// Inserts the rows in turn.
fn insert_rows(rt: &impl Abort, alloc: Global, map: &Map, guard: &mut Guard)
    requires { guard.old.book ≡ map.now }
    ensures { guard.new.book ≡ map.now }
{
    for (key, value, before) in ROWS {
        assert!(rt; map.try_insert(alloc, guard, key, value) == Ok(before));
    }
}

#[test]
fn keys_with_one_number_are_one_key(rt: HostRuntime) -> Result<(), Fail> {
    let map: Map = Congee::new(rt.alloc())?;
    let mut guard = map.pin();
    insert_rows(&rt, rt.alloc(), &map, &mut guard);
    assert!(rt; looked(&map, &mut guard, 19) == Ok(Some(Tens(10))));
    assert!(rt; looked(&map, &mut guard, 30) == Ok(None));
    map.unpin(guard);
    Ok(())
}

// A key, the value that is expected, what replaces it, and what the exchange returns.
type Exchange = (Tens, Tens, Option<Tens>, Result<Option<Tens>, Option<Tens>>);

// At first 12 has 70.
const EXCHANGES: [Exchange; 7] = [
    (Tens(12), Tens(60), Some(Tens(99)), Err(Some(Tens(70)))),
    (Tens(15), Tens(79), Some(Tens(99)), Ok(Some(Tens(99)))),
    (Tens(12), Tens(70), None, Err(Some(Tens(90)))),
    (Tens(22), Tens(70), Some(Tens(1)), Err(None)),
    (Tens(12), Tens(90), Some(Tens(0)), Ok(Some(Tens(0)))),
    (Tens(19), Tens(9), None, Ok(None)),
    (Tens(12), Tens(0), None, Err(None)),
];

// Makes the exchanges in turn.
fn exchange_rows(rt: &impl Abort, alloc: Global, map: &Map, guard: &mut Guard)
    requires { guard.old.book ≡ map.now }
{
    assert!(rt; put(map, alloc, guard, 12, 70) == Ok(None));
    for (key, old, new, wanted) in EXCHANGES {
        assert!(rt; map.try_compare_exchange(guard, &key, &old, new) == Ok(wanted));
    }
}

#[test]
fn values_with_one_number_are_exchanged_alike(rt: HostRuntime) -> Result<(), Fail> {
    let map: Map = Congee::new(rt.alloc())?;
    exchange_rows(&rt, rt.alloc(), &map, &mut map.pin());
    Ok(())
}

// Makes the calls of `EXCHANGES` in turn, by the form that goes on. Whether each returns what it has to, and 12 has no value
// in the end.
fn all_as_wanted<R: Wait>(rt: &R, map: &Map, guard: &mut Guard) -> bool
    requires { guard.old.book ≡ map.now }
{
    let mut all = true;
    for (key, old, new, wanted) in EXCHANGES {
        all = all && map.compare_exchange(rt, guard, &key, &old, new) == wanted;
    }
    all && map.get(rt, guard, &Tens(12)).is_none()
}

#[test]
fn the_forms_that_go_on_return_the_same(rt: HostRuntime) -> Result<(), Fail> {
    let map: Map = Congee::new(rt.alloc())?;
    let mut guard = map.pin();
    assert!(rt; map.insert(&rt, rt.alloc(), &mut guard, Tens(12), Tens(70)) == Ok(None));
    assert!(rt; all_as_wanted(&rt, &map, &mut guard));
    Ok(())
}

// What a removal returns.
fn removed(map: &Map, guard: &mut Guard, key: u64) -> Result<Option<Tens>, Busy>
    requires { guard.old.book ≡ map.now }
    ensures { guard.new.book ≡ map.now }
{
    map.try_remove(guard, &Tens(key))
}

fn remove_by_number<R: Wait + Abort>(rt: &R, alloc: Global, map: &Map, guard: &mut Guard)
    requires { guard.old.book ≡ map.now }
{
    let steps = [
        removed(map, guard, 12) == Ok(None),
        put(map, alloc, guard, 12, 75) == Ok(None),
        removed(map, guard, 22) == Ok(None),
        removed(map, guard, 17) == Ok(Some(Tens(70))),
        looked(map, guard, 12) == Ok(None),
        map.insert(rt, alloc, guard, Tens(12), Tens(80)) == Ok(None),
        map.remove(rt, guard, &Tens(10)) == Some(Tens(80)),
        map.remove(rt, guard, &Tens(12)).is_none(),
    ];
    all_hold(rt, &steps);
}

#[test]
fn a_key_is_removed_by_its_number(rt: HostRuntime) -> Result<(), Fail> {
    let map: Map = Congee::new(rt.alloc())?;
    remove_by_number(&rt, rt.alloc(), &map, &mut map.pin());
    Ok(())
}

fn call_closures<R: Wait + Abort>(rt: &R, alloc: Global, map: &Map, guard: &mut Guard)
    requires { guard.old.book ≡ map.now }
{
    let mut up = |n: u64| -> Option<u64> { Some(n.wrapping_add(1)) };
    let mut next = |n: Option<u64>| -> u64 { n.unwrap_or(0).wrapping_add(2) };
    let steps = [
        put(map, alloc, guard, 12, 70) == Ok(None),
        map.try_compute_if_present(guard, &Tens(15), &mut up) == Ok(Some((7, Some(8)))),
        map.compute_if_present(rt, guard, &Tens(25), &mut up)
            .is_none(),
        map.try_compute_or_insert(alloc, guard, Tens(12), &mut next) == Ok(Some(Tens(80))),
        map.compute_or_insert(rt, alloc, guard, Tens(30), &mut next) == Ok(None),
        looked(map, guard, 12) == Ok(Some(Tens(100))),
        looked(map, guard, 30) == Ok(Some(Tens(20))),
    ];
    all_hold(rt, &steps);
}

#[test]
fn a_closure_is_called_with_numbers(rt: HostRuntime) -> Result<(), Fail> {
    let map: Map = Congee::new(rt.alloc())?;
    call_closures(&rt, rt.alloc(), &map, &mut map.pin());
    Ok(())
}

type Numbers = Congee<u64, u64>;

fn ask_once(rt: &impl Abort, alloc: Global, map: &Numbers, guard: &mut Guard)
    requires { guard.old.book ≡ map.now }
{
    let mut asked = 0u64;
    let mut up = |n: u64| -> Option<u64> {
        asked = asked.wrapping_add(n);
        Some(n.wrapping_add(1))
    };
    let steps = [
        map.try_compute_if_present(guard, &7, &mut up) == Ok(None),
        map.try_insert(alloc, guard, 7, 70) == Ok(None),
        map.try_compute_if_present(guard, &7, &mut up) == Ok(Some((70, Some(71)))),
        asked == 70,
    ];
    all_hold(rt, &steps);
}

#[test]
fn a_closure_is_asked_once(rt: HostRuntime) -> Result<(), Fail> {
    let map: Numbers = Congee::new(rt.alloc())?;
    ask_once(&rt, rt.alloc(), &map, &mut map.pin());
    Ok(())
}

fn ask_for_a_value_once(rt: &impl Abort, alloc: Global, map: &Numbers, guard: &mut Guard)
    requires { guard.old.book ≡ map.now }
{
    let mut asked = 0u64;
    let mut next = |n: Option<u64>| -> u64 {
        asked = asked.wrapping_add(match n {
            Some(found) => found,
            None => 1,
        });
        70
    };
    let steps = [
        map.try_compute_or_insert(alloc, guard, 7, &mut next) == Ok(None),
        map.try_compute_or_insert(alloc, guard, 7, &mut next) == Ok(Some(70)),
        asked == 71,
    ];
    all_hold(rt, &steps);
}

#[test]
fn a_closure_for_a_new_value_is_asked_once(rt: HostRuntime) -> Result<(), Fail> {
    let map: Numbers = Congee::new(rt.alloc())?;
    ask_for_a_value_once(&rt, rt.alloc(), &map, &mut map.pin());
    Ok(())
}

fn add_numbers<R: Wait + Abort>(rt: &R, alloc: Global, map: &Map, guard: &mut Guard)
    requires { guard.old.book ≡ map.now }
{
    let steps = [
        map.try_add(alloc, guard, Tens(12), 7) == Ok(None),
        map.try_add(alloc, guard, Tens(19), 5) == Ok(Some(Tens(70))),
        map.add(rt, alloc, guard, Tens(10), u64::MAX) == Ok(Some(Tens(120))),
        map.add(rt, alloc, guard, Tens(20), 3) == Ok(None),
        looked(map, guard, 11) == Ok(Some(Tens(110))),
        looked(map, guard, 21) == Ok(Some(Tens(30))),
    ];
    all_hold(rt, &steps);
}

#[test]
fn a_number_is_added_to_that_of_the_value(rt: HostRuntime) -> Result<(), Fail> {
    let map: Map = Congee::new(rt.alloc())?;
    add_numbers(&rt, rt.alloc(), &map, &mut map.pin());
    Ok(())
}

fn keep_values<R: Wait + Abort>(rt: &R, alloc: Global, map: &Map, guard: &mut Guard)
    requires { guard.old.book ≡ map.now }
{
    let steps = [
        map.try_get_or_insert(alloc, guard, Tens(12), Tens(70)) == Ok(None),
        map.try_get_or_insert(alloc, guard, Tens(13), Tens(90)) == Ok(Some(Tens(70))),
        map.get_or_insert(rt, alloc, guard, Tens(19), Tens(1)) == Ok(Some(Tens(70))),
        map.get_or_insert(rt, alloc, guard, Tens(20), Tens(35)) == Ok(None),
        looked(map, guard, 15) == Ok(Some(Tens(70))),
        looked(map, guard, 25) == Ok(Some(Tens(30))),
    ];
    all_hold(rt, &steps);
}

#[test]
fn a_present_key_keeps_its_value(rt: HostRuntime) -> Result<(), Fail> {
    let map: Map = Congee::new(rt.alloc())?;
    keep_values(&rt, rt.alloc(), &map, &mut map.pin());
    Ok(())
}

// Each guard has what the other one did before they met.
fn meet_twice(rt: &impl Abort, alloc: Global, map: &Congee<u64, Tens>, a: &mut Guard, b: &mut Guard)
    requires first { a.old.book ≡ map.now }
    requires second { b.old.book ≡ map.now }
{
    assert!(rt; map.try_insert(alloc, a, 7, Tens(30)) == Ok(None));
    meet(a, b);
    assert!(rt; map.try_get(b, &7) == Ok(Some(Tens(30))));
    let exchanged = map.try_compare_exchange(b, &7, &Tens(30), Some(Tens(40)));
    assert!(rt; exchanged == Ok(Ok(Some(Tens(40)))));
    meet(b, a);
    assert!(rt; map.try_get(a, &7) == Ok(Some(Tens(40))));
}

#[test]
fn what_two_guards_do_once_they_have_met(rt: HostRuntime) -> Result<(), Fail> {
    let map: Congee<u64, Tens> = Congee::new(rt.alloc())?;
    meet_twice(&rt, rt.alloc(), &map, &mut map.pin(), &mut map.pin());
    Ok(())
}
