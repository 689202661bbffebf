//! The insertion of many pairs in one hold, under budgets.

ghost use Rattle.std.specs.Prelude.{◌*◌, ◌/◌, ◌%◌, ◌≡◌, ◌+◌, ◌^◌};

use congee::locked::{Congee, Guard, Share, U64Congee};
use congee::{Budget, InsertManyError, Word};
use std::alloc::Global;
use std::marker::Brand;
use std::sync::Wait;
use std::sync::ledger::{Blank, Ledger};
use std::test::Fail;

const SIX: [(u64, u64); 6] = [(1, 10), (2, 20), (1, 11), (256, 30), (2, 21), (512, 40)];

/// A budget, what six pairs return under it, then the values of 1, 2, 256 and 512, and how many pairs there are.
type Limit = (u64, Result<(), InsertManyError>, [Option<u64>; 4], u128);

const LIMITS: [Limit; 4] = [
    (
        2104,
        Err(InsertManyError { inserted: 0 }),
        [None, None, None, None],
        0,
    ),
    (
        2168,
        Err(InsertManyError { inserted: 3 }),
        [Some(11), Some(20), None, None],
        2,
    ),
    (
        2296,
        Err(InsertManyError { inserted: 5 }),
        [Some(11), Some(21), Some(30), None],
        3,
    ),
    (2360, Ok(()), [Some(11), Some(21), Some(30), Some(40)], 4),
];

fn values<L: Ledger, R: Wait>(
    rt: &R,
    map: &U64Congee<L, u64, Budget>,
    guard: &mut Guard<'_, L, Budget>,
) -> [Option<u64>; 4]
    requires { guard.old.table ≡ map.now }
    ensures { guard.new.table ≡ guard.old.table }
{
    let one = map.get(rt, guard, 1);
    let two = map.get(rt, guard, 2);
    let third = map.get(rt, guard, 256);
    [one, two, third, map.get(rt, guard, 512)]
}

// Whether six pairs return what they should.
fn inserts_six<L: Ledger, R: Wait>(
    rt: &R,
    map: &U64Congee<L, u64, Budget>,
    share: Share<L>,
    limit: &Limit,
) -> Result<bool, Fail> {
    let mut guard = map.pin(rt)?;
    let returned = map.insert_many(rt, &mut guard, &SIX) == limit.1;
    let stored = values(rt, map, &mut guard) == limit.2;
    map.unpin(rt, guard);
    Ok(returned && stored && map.settle(rt, share).ok() == Some(limit.3))
}

fn is_right<L: Ledger, R: Wait>(
    rt: &R,
    alloc: Global,
    blank: Blank,
    limit: &Limit,
) -> Result<bool, Fail>
    requires name { blank.name ≡ L.name }
    requires parts { blank.parts ≡ L.parts }
    requires whole { L.parts ≡ 2 ^ 63 + 1 }
{
    let (map, share) = U64Congee::<L, u64, Budget>::new_in(alloc, blank, Budget::new(limit.0))?;
    inserts_six(rt, &map, share, limit)
}

#[test]
fn many_inserted(rt: HostRuntime) -> Result<(), Fail> {
    for limit in &LIMITS {
        assert!(rt; is_right::<Brand, _>(&rt, rt.alloc(), Blank::new((1 << 63) + 1), limit)?);
    }
    Ok(())
}

/// Written as its value divided by ten; n is read back as 10n.
#[derive(Clone, Copy, Debug, PartialEq, Eq)]
struct Tens(u64);

impl Word for Tens {
    ghost number = { λ t. t.0 / 10 };

    ghost of_number = { λ n. record { 0 = (n * 10) % 2 ^ 64 } };

    fn from_u64(n: u64) -> Tens {
        Tens(n.wrapping_mul(10))
    }

    fn into_u64(self) -> u64 {
        self.0 / 10
    }
}

const THREE: [(Tens, Tens); 3] = [
    (Tens(12), Tens(70)),
    (Tens(19), Tens(81)),
    (Tens(20), Tens(5)),
];

// What no pairs and then three return, of which two have one key, and the values that are left.
fn typed<L: Ledger, R: Wait>(
    rt: &R,
    alloc: Global,
    blank: Blank,
) -> Result<(bool, bool, Option<Tens>, Option<Tens>), Fail>
    requires name { blank.name ≡ L.name }
    requires parts { blank.parts ≡ L.parts }
    requires whole { L.parts ≡ 2 ^ 63 + 1 }
{
    let (map, _share) = Congee::<L, Tens, Tens>::new(alloc, blank, congee::DefaultAllocator {})?;
    let mut guard = map.pin(rt)?;
    let none = map.insert_many(rt, &mut guard, &[]).is_ok();
    let three = map.insert_many(rt, &mut guard, &THREE).is_ok();
    let first = map.get(rt, &mut guard, &Tens(15));
    Ok((none, three, first, map.get(rt, &mut guard, &Tens(29))))
}

#[test]
fn typed_pairs_inserted(rt: HostRuntime) -> Result<(), Fail> {
    let done = typed::<Brand, _>(&rt, rt.alloc(), Blank::new((1 << 63) + 1))?;
    assert!(rt; done == (true, true, Some(Tens(80)), Some(Tens(0))));
    Ok(())
}
