//! Worked examples of the faces, with types whose conversions lose something.

ghost use Rattle.std.specs.Prelude.{◌*◌, ◌/◌, ◌%◌, ◌^◌};

use super::rows::{NumberWanted, Wanted, list_right, number_list_right};
use congee_owned::{Congee, DefaultAllocator, OOMError, Word};
use face_runs::calls::Call;
use face_runs::u64_calls::U64Call;
use std::alloc::Global;
use std::test::Fail;

/// Written as its value divided by two; n is read back as 2n.
#[derive(Clone, Copy, Debug, PartialEq, Eq)]
pub(super) struct Half(pub(super) u64);

impl Word for Half {
    ghost number = { λ h. h.0 / 2 };

    ghost of_number = { λ n. record { 0 = (n * 2) % 2 ^ 64 } };

    fn from_u64(n: u64) -> Half {
        Half(n.wrapping_mul(2))
    }

    fn into_u64(self) -> u64 {
        self.0 / 2
    }
}

/// Written as its value divided by ten; n is read back as 10n.
#[derive(Clone, Copy, Debug, PartialEq, Eq)]
pub(super) struct Tens(pub(super) u64);

impl Word for Tens {
    ghost number = { λ t. t.0 / 10 };

    ghost of_number = { λ n. record { 0 = (n * 10) % 2 ^ 64 } };

    fn from_u64(n: u64) -> Tens {
        Tens(n.wrapping_mul(10))
    }

    fn into_u64(self) -> u64 {
        self.0 / 10
    }
}

#[test]
fn keys_with_one_number_are_one_key(rt: HostRuntime) -> Result<(), Fail> {
    const ROWS: [(Call<Tens, u64>, Wanted<'static, Tens, u64>); 7] = [
        (Call::Insert(Tens(12), 1), Wanted::Old(None)),
        (Call::Insert(Tens(17), 2), Wanted::Old(Some(1))),
        (Call::Keys, Wanted::Listed(&[Tens(10)])),
        (Call::Get(Tens(19)), Wanted::Old(Some(2))),
        (Call::Get(Tens(20)), Wanted::Old(None)),
        (Call::Remove(Tens(10)), Wanted::Old(Some(2))),
        (Call::IsEmpty, Wanted::Tested(true)),
    ];
    assert!(rt; list_right::<Tens, u64>(rt.alloc(), &ROWS)?);
    Ok(())
}

#[test]
fn exchange_returns_the_handed_value(rt: HostRuntime) -> Result<(), Fail> {
    const OLD: Half = Half(6);
    const NEW: Option<Half> = Some(Half(9));
    const ROWS: [(Call<u64, Half>, Wanted<'static, u64, Half>); 3] = [
        (Call::Insert(1, Half(7)), Wanted::Old(None)),
        (
            Call::CompareExchange(1, OLD, NEW),
            Wanted::Exchanged(Ok(NEW)),
        ),
        (
            Call::CompareExchange(1, OLD, NEW),
            Wanted::Exchanged(Err(Some(Half(8)))),
        ),
    ];
    assert!(rt; list_right::<u64, Half>(rt.alloc(), &ROWS)?);
    Ok(())
}

// Raises the number at the key by one, or removes the key at `u64::MAX`, and counts the calls of its closure.
fn raise(map: &mut Congee<u64, u64>, key: u64, calls: &mut u32) -> Option<(u64, Option<u64>)> {
    let mut raise = |current: u64| -> Option<u64> {
        *calls = calls.wrapping_add(1);
        current.checked_add(1)
    };
    map.compute_if_present(&key, &mut raise)
}

/// What a raise at key 1 returns, and then its value.
type Raised = (Option<(u64, Option<u64>)>, Option<u64>);

const ABSENT: [Raised; 1] = [(None, None)];

const PRESENT: [Raised; 3] = [
    (Some((u64::MAX - 1, Some(u64::MAX))), Some(u64::MAX)),
    (Some((u64::MAX, None)), None),
    (None, None),
];

// The place of the first raise that isn't right, if there is one.
fn wrong_raise(map: &mut Congee<u64, u64>, calls: &mut u32, rows: &[Raised]) -> Option<usize> {
    for place in 0..rows.len() {
        let (raised, current) = rows[place];
        if raise(map, 1, calls) != raised || map.get(&1) != current {
            return Some(place);
        }
    }
    None
}

// Whether each raise is right before a value is stored and after that, and the closure is called where there is one.
fn raises(map: &mut Congee<u64, u64>) -> bool {
    let mut calls = 0u32;
    let right = [
        wrong_raise(map, &mut calls, &ABSENT).is_none(),
        map.insert(1, u64::MAX - 1) == Ok(None),
        wrong_raise(map, &mut calls, &PRESENT).is_none(),
    ];
    right == [true; 3] && calls == 2
}

#[test]
fn computes_where_a_key_is_present(rt: HostRuntime) -> Result<(), Fail> {
    assert!(rt; raises(&mut Congee::new(rt.alloc(), DefaultAllocator {})?));
    Ok(())
}

// Raises the number at the key by one, or stores 11 at a new one; counts the calls of its closure.
fn raise_or_begin(
    map: &mut Congee<u64, Half>,
    key: u64,
    calls: &mut u32,
) -> Result<Option<Half>, OOMError> {
    let mut count = |current: Option<u64>| -> u64 {
        *calls = calls.wrapping_add(1);
        current.unwrap_or(10).wrapping_add(1)
    };
    map.compute_or_insert(key, &mut count)
}

fn begins_and_raises(map: &mut Congee<u64, Half>) -> Result<bool, OOMError> {
    let mut calls = 0u32;
    let begun = raise_or_begin(map, 5, &mut calls)?;
    let raised = raise_or_begin(map, 5, &mut calls)?;
    let right = begun.is_none() && raised == Some(Half(22)) && map.get(&5) == Some(Half(24));
    Ok(right && calls == 2)
}

fn begins_and_raises_on_new_map(alloc: Global) -> Result<bool, OOMError> {
    let mut map = Congee::new(alloc, DefaultAllocator {})?;
    begins_and_raises(&mut map)
}

#[test]
fn computes_or_inserts(rt: HostRuntime) -> Result<(), Fail> {
    assert!(rt; begins_and_raises_on_new_map(rt.alloc())?);
    Ok(())
}

#[test]
fn runs_a_list_of_calls(rt: HostRuntime) -> Result<(), Fail> {
    const KEY: Tens = Tens(50);
    const OTHER: Tens = Tens(41);
    const ROWS: [(Call<Tens, Half>, Wanted<'static, Tens, Half>); 19] = [
        (Call::IsEmpty, Wanted::Tested(true)),
        (Call::Get(KEY), Wanted::Old(None)),
        (Call::Insert(KEY, Half(3)), Wanted::Old(None)),
        (Call::Insert(OTHER, Half(1)), Wanted::Old(None)),
        (Call::Insert(Tens(55), Half(5)), Wanted::Old(Some(Half(2)))),
        (Call::Get(OTHER), Wanted::Old(Some(Half(0)))),
        (
            Call::CompareExchange(KEY, Half(9), None),
            Wanted::Exchanged(Err(Some(Half(4)))),
        ),
        (
            Call::CompareExchange(KEY, Half(4), Some(Half(7))),
            Wanted::Exchanged(Ok(Some(Half(7)))),
        ),
        (
            Call::ComputeIfPresent(KEY, Some(100)),
            Wanted::Computed(Some((3, Some(100)))),
        ),
        (Call::ComputeOrInsert(KEY, 6), Wanted::Old(Some(Half(200)))),
        (
            Call::ComputeIfPresent(Tens(0), None),
            Wanted::Computed(None),
        ),
        (
            Call::ComputeIfPresent(KEY, None),
            Wanted::Computed(Some((6, None))),
        ),
        (Call::ComputeOrInsert(KEY, 8), Wanted::Old(None)),
        (Call::Remove(OTHER), Wanted::Old(Some(Half(0)))),
        (Call::Remove(OTHER), Wanted::Old(None)),
        (Call::IsEmpty, Wanted::Tested(false)),
        (Call::Insert(OTHER, Half(9)), Wanted::Old(None)),
        (Call::Keys, Wanted::Listed(&[Tens(40), Tens(50)])),
        (Call::Range(OTHER, Tens(60), 1), Wanted::Ranged(&[(4, 4)])),
    ];
    assert!(rt; list_right::<Tens, Half>(rt.alloc(), &ROWS)?);
    Ok(())
}

#[test]
fn runs_a_list_of_calls_by_numbers(rt: HostRuntime) -> Result<(), Fail> {
    const PAIRS: [([u8; 8], u64); 2] = [
        ([0, 0, 0, 0, 0, 0, 0, 4], 0),
        ([0, 0, 0, 0, 0, 0, 0, 5], 4),
    ];
    const ROWS: [(U64Call<Half>, NumberWanted<'static, Half>); 11] = [
        (U64Call::Get(5), NumberWanted::Old(None)),
        (U64Call::Insert(5, Half(3)), NumberWanted::Old(None)),
        (U64Call::Insert(4, Half(1)), NumberWanted::Old(None)),
        (
            U64Call::Insert(5, Half(5)),
            NumberWanted::Old(Some(Half(2))),
        ),
        (U64Call::Get(4), NumberWanted::Old(Some(Half(0)))),
        (U64Call::Remove(5), NumberWanted::Old(Some(Half(4)))),
        (U64Call::Get(5), NumberWanted::Old(None)),
        (U64Call::Insert(u64::MAX, Half(9)), NumberWanted::Old(None)),
        (U64Call::Get(u64::MAX), NumberWanted::Old(Some(Half(8)))),
        (U64Call::Insert(5, Half(9)), NumberWanted::Old(None)),
        (U64Call::Range(4, 6, 8), NumberWanted::Ranged(&PAIRS)),
    ];
    assert!(rt; number_list_right::<Half>(rt.alloc(), &ROWS)?);
    Ok(())
}

fn reports_it(alloc: Global, error: OOMError, wanted: &str) -> Result<bool, Fail> {
    let printed = format!(in alloc; "{error}, {error:?}")?;
    Ok(printed.as_str() == wanted)
}

#[test]
fn reports_missing_memory(rt: HostRuntime) -> Result<(), Fail> {
    let text = "Allocator is out of memory!, Allocator is out of memory!";
    assert!(rt; reports_it(rt.alloc(), OOMError::new(), text)?);
    Ok(())
}
