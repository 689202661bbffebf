//! At the end of a map its drainer is called with each pair, keys ascending.

ghost use Rattle.std.specs.Prelude.{◌≡◌, ◌+◌, ◌^◌, IfSome};

use node_table::allocator::DefaultAllocator;
use share_backend::snapshots::{Made, Pages};
use share_faces::typed_congee::{Congee, Guard};
use share_machine::events::Events;
use share_tree::direct::Direct;
use spec_map::traits::Drainer;
use std::alloc::Global;
use std::marker::Brand;
use std::sync::Wait;
use std::sync::atomic::{AtomicU64, Ordering};
use std::sync::ledger::{Blank, Ledger};
use std::test::Fail;

type Machine = Events<u64, DefaultAllocator>;

type Tree = Direct<u64, DefaultAllocator>;

// Notes the pairs with which it is called: their number, and a number that shows their order.
#[derive(Drop)]
struct Notes<'a> {
    count: &'a AtomicU64,
    text: &'a AtomicU64,
}

impl<'a> Drainer<u64, u64> for Notes<'a> {
    ghost can_drain = { λ _. Unit {0} };

    fn drain(&self, k: u64, v: u64) {
        self.count.fetch_add(1, Ordering::SeqCst);
        let before = self.text.load(Ordering::SeqCst);
        let after = before
            .wrapping_mul(1000)
            .wrapping_add(k.wrapping_mul(100))
            .wrapping_add(v);
        self.text.store(after, Ordering::SeqCst);
    }
}

fn two_pairs<L: Ledger, M: Pages + Made<u64, u64, DefaultAllocator>, R: Wait>(
    rt: &R,
    alloc: Global,
    blank: Blank,
    notes: Notes<'_>,
) -> Result<(), Fail>
    requires name { blank.name ≡ L.name }
    requires parts { blank.parts ≡ L.parts }
    requires whole { L.parts ≡ 2 ^ 63 + 1 }
{
    let (map, _) = Congee::<L, u64, u64, M, Notes<'_>>::new_with_drainer(
        alloc,
        blank,
        DefaultAllocator {},
        notes,
    )?;
    let mut guard = map.pin(rt)?;
    map.insert(rt, &mut guard, 2, 20)?;
    map.insert(rt, &mut guard, 1, 10)?;
    map.unpin(rt, guard);
    Ok(())
}

// Stores a thousand keys, and returns its guard.
fn store_many<'a, L: Ledger, M: Pages, R: Wait>(
    rt: &R,
    map: &Congee<L, u64, u64, M, Notes<'_>>,
    mut guard: Guard<'a, L, M>,
) -> Option<Guard<'a, L, M>>
    requires { guard.table ≡ map.now }
    ensures { IfSome result (λ kept. kept.table ≡ map.now) }
{
    let mut key = 1u64;
    for _ in 0..1000u32 {
        key = key.wrapping_mul(0x9e37_79b9_7f4a_7c15).wrapping_add(12345);
        map.insert(rt, &mut guard, key, key).ok()?;
    }
    Some(guard)
}

fn many_pairs<L: Ledger, M: Pages + Made<u64, u64, DefaultAllocator>, R: Wait>(
    rt: &R,
    alloc: Global,
    blank: Blank,
    notes: Notes<'_>,
) -> Result<(), Fail>
    requires name { blank.name ≡ L.name }
    requires parts { blank.parts ≡ L.parts }
    requires whole { L.parts ≡ 2 ^ 63 + 1 }
{
    let (map, _) = Congee::<L, u64, u64, M, Notes<'_>>::new_with_drainer(
        alloc,
        blank,
        DefaultAllocator {},
        notes,
    )?;
    let guard = map.pin(rt)?;
    let mut guard = store_many(rt, &map, guard).ok_or("a key was refused")?;
    map.insert(rt, &mut guard, u64::MAX, 1)?;
    map.insert(rt, &mut guard, 0, 1)?;
    map.unpin(rt, guard);
    Ok(())
}

// The number of pairs that each map drained, and the first map's order.
fn drained<L: Ledger, M: Pages + Made<u64, u64, DefaultAllocator>, R: Wait>(
    rt: &R,
    alloc: Global,
    blank: Blank,
    many: bool,
) -> Result<(u64, u64), Fail>
    requires name { blank.name ≡ L.name }
    requires parts { blank.parts ≡ L.parts }
    requires whole { L.parts ≡ 2 ^ 63 + 1 }
{
    let (count, text) = (AtomicU64::new(0), AtomicU64::new(0));
    let notes = Notes {
        count: &count,
        text: &text,
    };
    if many {
        many_pairs::<L, M, R>(rt, alloc, blank, notes)?;
    } else {
        two_pairs::<L, M, R>(rt, alloc, blank, notes)?;
    }
    Ok((count.load(Ordering::SeqCst), text.load(Ordering::SeqCst)))
}

#[test]
fn a_drainer_is_called_in_the_order_of_keys(rt: HostRuntime) -> Result<(), Fail> {
    let two = drained::<Brand, Machine, _>(&rt, rt.alloc(), Blank::new((1 << 63) + 1), false)?;
    assert!(rt; two == (2, 110_220));
    let many = drained::<Brand, Machine, _>(&rt, rt.alloc(), Blank::new((1 << 63) + 1), true)?;
    assert!(rt; many.0 == 1002);
    let two = drained::<Brand, Tree, _>(&rt, rt.alloc(), Blank::new((1 << 63) + 1), false)?;
    assert!(rt; two == (2, 110_220));
    let many = drained::<Brand, Tree, _>(&rt, rt.alloc(), Blank::new((1 << 63) + 1), true)?;
    assert!(rt; many.0 == 1002);
    Ok(())
}
