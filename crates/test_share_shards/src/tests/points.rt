//! The calls on one key, with keys and values of a type of their own, by one thread.

ghost use Rattle.std.specs.Prelude.{◌*◌, ◌/◌, ◌%◌, ◌^◌, ◌≡◌};

use share_sharded::sharded::{Congee, Guard, Shards, meet};
use spec_map::traits::Word;
use std::sync::Wait;
use std::test::Fail;

/// Written as its value divided by ten; n is read back as 10n.
#[derive(Clone, Copy, Debug, PartialEq, Eq)]
struct Tens(u64);

impl Word for Tens {
    ghost number = { λ t. t.0 / 10 };

    ghost of_number = { λ n. record { 0 = (n * 10) % 2 ^ 64 } };

    fn from_u64(n: u64) -> Tens {
        Tens(n.wrapping_mul(10))
    }

    fn into_u64(self) -> u64 {
        self.0 / 10
    }
}

#[derive(Clone, Copy)]
enum Call {
    Get(Tens),
    Insert(Tens, Tens),
    Remove(Tens),
    Add(Tens, u64),
    GetOrInsert(Tens, Tens),
}

// The calls on an empty map, and what each returns. The number of 90,000 is of another shard than the others.
const ROWS: [(Call, Option<Tens>); 20] = [
    (Call::Get(Tens(12)), None),
    (Call::Insert(Tens(12), Tens(70)), None),
    (Call::Insert(Tens(17), Tens(89)), Some(Tens(70))),
    (Call::Get(Tens(19)), Some(Tens(80))),
    (Call::Get(Tens(20)), None),
    (Call::GetOrInsert(Tens(25), Tens(41)), None),
    (Call::GetOrInsert(Tens(20), Tens(99)), Some(Tens(40))),
    (Call::Get(Tens(20)), Some(Tens(40))),
    (Call::Add(Tens(20), 3), Some(Tens(40))),
    (Call::Get(Tens(20)), Some(Tens(70))),
    (Call::Add(Tens(20), u64::MAX), Some(Tens(70))),
    (Call::Get(Tens(20)), Some(Tens(60))),
    (Call::Add(Tens(90_000), 5), None),
    (Call::Get(Tens(90_009)), Some(Tens(50))),
    (Call::Remove(Tens(29)), Some(Tens(60))),
    (Call::Remove(Tens(29)), None),
    (Call::Get(Tens(20)), None),
    (Call::Remove(Tens(90_001)), Some(Tens(50))),
    (Call::Get(Tens(90_000)), None),
    (Call::Get(Tens(12)), Some(Tens(80))),
];

type Map = Congee<Tens, Tens>;

// What the call returns, or `None` where it isn't made.
fn tried(map: &Map, guard: &mut Guard, call: Call) -> Option<Option<Tens>>
    requires { guard.old.table ≡ map.now.table }
    ensures { guard.new.table ≡ guard.old.table }
{
    match call {
        Call::Get(key) => map.try_get(guard, &key).ok(),
        Call::Insert(key, value) => map.try_insert(guard, key, value).ok(),
        Call::Remove(key) => map.try_remove(guard, &key).ok(),
        Call::Add(key, number) => map.try_add(guard, key, number).ok(),
        Call::GetOrInsert(key, value) => map.try_get_or_insert(guard, key, value).ok(),
    }
}

// What the call returns, by the form that waits, or `None` where memory was missing.
fn made<R: Wait>(rt: &R, map: &Map, guard: &mut Guard, call: Call) -> Option<Option<Tens>>
    requires { guard.old.table ≡ map.now.table }
    ensures { guard.new.table ≡ guard.old.table }
{
    match call {
        Call::Get(key) => Some(map.get(rt, guard, &key)),
        Call::Insert(key, value) => map.insert(rt, guard, key, value).ok(),
        Call::Remove(key) => Some(map.remove(rt, guard, &key)),
        Call::Add(key, number) => map.add(rt, guard, key, number).ok(),
        Call::GetOrInsert(key, value) => map.get_or_insert(rt, guard, key, value).ok(),
    }
}

// By one of the two forms.
fn by_form<R: Wait>(
    rt: &R,
    map: &Map,
    guard: &mut Guard,
    call: Call,
    tries: bool,
) -> Option<Option<Tens>>
    requires { guard.old.table ≡ map.now.table }
    ensures { guard.new.table ≡ guard.old.table }
{
    if tries {
        tried(map, guard, call)
    } else {
        made(rt, map, guard, call)
    }
}

// The number of the rows before the first wrong one.
fn right_rows<R: Wait>(rt: &R, map: &Map, guard: &mut Guard, tries: bool) -> usize
    requires { guard.old.table ≡ map.now.table }
{
    let mut right = 0;
    for (call, expected) in ROWS {
        if by_form(rt, map, guard, call, tries) != Some(expected) {
            return right;
        }
        right = right.saturating_add(1);
    }
    right
}

#[test]
fn calls_on_one_key(rt: HostRuntime) -> Result<(), Fail> {
    for (shards, tries) in [
        (Shards::One, true),
        (Shards::One, false),
        (Shards::SixtyFour, true),
        (Shards::SixtyFour, false),
    ] {
        let map: Map = Congee::new(rt.alloc(), shards, u64::MAX)?;
        let mut guard = map.pin()?;
        assert!(rt; right_rows(&rt, &map, &mut guard, tries) == ROWS.len());
        map.unpin(guard);
    }
    Ok(())
}

// The value that is expected of 12, the one to replace it, and what the exchange returns. At first 12 has 70.
const EXCHANGES: [(Tens, Option<Tens>, Result<Option<Tens>, Option<Tens>>); 6] = [
    (Tens(60), Some(Tens(99)), Err(Some(Tens(70)))),
    (Tens(79), Some(Tens(99)), Ok(Some(Tens(99)))),
    (Tens(70), None, Err(Some(Tens(90)))),
    (Tens(91), Some(Tens(5)), Ok(Some(Tens(5)))),
    (Tens(0), None, Ok(None)),
    (Tens(0), Some(Tens(1)), Err(None)),
];

// What is exchanged at 15, by one of the two forms.
fn exchanged<R: Wait>(
    rt: &R,
    map: &Map,
    guard: &mut Guard,
    old: Tens,
    new: Option<Tens>,
    tries: bool,
) -> Option<Result<Option<Tens>, Option<Tens>>>
    requires { guard.old.table ≡ map.now.table }
    ensures { guard.new.table ≡ guard.old.table }
{
    if tries {
        map.try_compare_exchange(guard, &Tens(15), &old, new).ok()
    } else {
        Some(map.compare_exchange(rt, guard, &Tens(15), &old, new))
    }
}

// The number of the exchanges before the first wrong one.
fn right_exchanges<R: Wait>(rt: &R, map: &Map, guard: &mut Guard, tries: bool) -> usize
    requires { guard.old.table ≡ map.now.table }
{
    let mut right = 0;
    for (old, new, expected) in EXCHANGES {
        if exchanged(rt, map, guard, old, new, tries) != Some(expected) {
            return right;
        }
        right = right.saturating_add(1);
    }
    right
}

#[test]
fn values_with_one_number_are_exchanged_alike(rt: HostRuntime) -> Result<(), Fail> {
    for (shards, tries) in [(Shards::One, true), (Shards::SixtyFour, false)] {
        let map: Map = Congee::new(rt.alloc(), shards, u64::MAX)?;
        let mut guard = map.pin()?;
        assert!(rt; map.try_insert(&mut guard, Tens(12), Tens(70)) == Ok(None));
        assert!(rt; right_exchanges(&rt, &map, &mut guard, tries) == EXCHANGES.len());
    }
    Ok(())
}

#[test]
fn what_a_guard_does_once_it_learned_a_note(rt: HostRuntime) -> Result<(), Fail> {
    let map: Congee<u64, Tens> = Congee::new(rt.alloc(), Shards::SixtyFour, u64::MAX)?;
    let mut a = map.pin()?;
    let mut b = map.pin()?;
    assert!(rt; map.try_insert(&mut a, 7, Tens(30)) == Ok(None));
    let mut note = a.note();
    assert!(rt; map.try_remove(&mut a, &7) == Ok(Some(Tens(30))));
    b.learn(&mut note);
    // (what was removed after the note is gone, too)
    assert!(rt; map.try_get(&mut b, &7) == Ok(None));
    Ok(())
}

#[test]
fn what_two_guards_do_once_they_have_met(rt: HostRuntime) -> Result<(), Fail> {
    let map: Congee<u64, Tens> = Congee::new(rt.alloc(), Shards::SixtyFour, u64::MAX)?;
    let mut a = map.pin()?;
    let mut b = map.pin()?;
    assert!(rt; map.try_insert(&mut a, 7, Tens(30)) == Ok(None));
    meet(&mut a, &mut b);
    assert!(rt; map.try_remove(&mut b, &7) == Ok(Some(Tens(30))));
    meet(&mut b, &mut a);
    assert!(rt; map.try_get(&mut a, &7) == Ok(None));
    Ok(())
}
