//! Rows of calls with what each has to return, and their comparison with the replies of a map.
//!
//! Rows are `Copy`. A reply is owned by a helper that returns a `bool` or a number, since each assertion beside an
//! owned value makes a test more expensive to prove.

use congee_owned::{Allocator, Congee, DefaultAllocator, OOMError, U64Congee, Word};
use face_runs::calls::{Call, Reply, make_call, run_calls};
use face_runs::u64_calls::{U64Call, U64Reply, run_u64_calls};
use std::alloc::Global;

/// What a call has to return.
#[derive(Clone, Copy)]
pub(super) enum Wanted<'a, K: Copy, V: Copy> {
    Old(Option<V>),
    Exchanged(Result<Option<V>, Option<V>>),
    Computed(Option<(u64, Option<u64>)>),
    Tested(bool),
    Listed(&'a [K]),
    Ranged(&'a [(u64, u64)]),
    Refused,
}

fn is_wanted<K: Word + PartialEq, V: Word + PartialEq>(
    reply: &Reply<K, V>,
    wanted: &Wanted<'_, K, V>,
) -> bool {
    match wanted {
        Wanted::Old(expected) => matches!(reply, Reply::Old(value) if value == expected),
        Wanted::Exchanged(expected) => matches!(reply, Reply::Exchanged(r) if r == expected),
        Wanted::Computed(expected) => matches!(reply, Reply::Computed(r) if r == expected),
        Wanted::Tested(expected) => matches!(reply, Reply::Tested(test) if test == expected),
        Wanted::Listed(expected) =>
            matches!(reply, Reply::Listed(keys) if keys.as_slice() == *expected),
        Wanted::Ranged(expected) =>
            matches!(reply, Reply::Ranged(pairs) if pairs.as_slice() == *expected),
        Wanted::Refused => matches!(reply, Reply::Refused),
    }
}

// Makes the call, and returns whether its reply is the wanted one.
fn replies<K: Word + PartialEq, V: Word + PartialEq, A: Allocator>(
    alloc: Global,
    map: &mut Congee<K, V, A>,
    call: &Call<K, V>,
    wanted: &Wanted<'_, K, V>,
) -> bool {
    is_wanted(&make_call(alloc, map, call), wanted)
}

/// Makes the calls of the rows, one after another. The place of the first whose reply isn't the wanted one, if there is
/// one.
pub(super) fn wrong_row<K: Word + PartialEq, V: Word + PartialEq, A: Allocator>(
    alloc: Global,
    map: &mut Congee<K, V, A>,
    rows: &[(Call<K, V>, Wanted<'_, K, V>)],
) -> Option<usize> {
    for place in 0..rows.len() {
        let (call, wanted) = &rows[place];
        if !replies(alloc, map, call, wanted) {
            return Some(place);
        }
    }
    None
}

fn list_of<K: Word, V: Word>(
    alloc: Global,
    rows: &[(Call<K, V>, Wanted<'_, K, V>)],
) -> Result<Vec<Call<K, V>>, OOMError> {
    let mut calls = Vec::new(alloc);
    for (call, _) in rows {
        calls.push(*call)?;
    }
    Ok(calls)
}

// How many replies, from the first on, are the wanted ones.
fn count_wanted<K: Word + PartialEq, V: Word + PartialEq>(
    replies: &[Reply<K, V>],
    rows: &[(Call<K, V>, Wanted<'_, K, V>)],
) -> usize {
    for i in 0..rows.len() {
        match replies.get(i) {
            Some(reply) if is_wanted(reply, &rows[i].1) => {}
            _ => return i,
        }
    }
    rows.len()
}

// Makes the calls of the rows as one list. How many replies, from the first on, are the wanted ones.
fn list_wanted<K: Word + PartialEq, V: Word + PartialEq>(
    alloc: Global,
    map: &mut Congee<K, V>,
    rows: &[(Call<K, V>, Wanted<'_, K, V>)],
) -> Result<usize, OOMError> {
    let calls = list_of(alloc, rows)?;
    let replies = run_calls(alloc, map, &calls)?;
    Ok(count_wanted(&replies, rows))
}

/// Makes the calls of the rows on a new map, as one list. Whether the replies are the wanted ones.
pub(super) fn list_right<K: Word + PartialEq, V: Word + PartialEq>(
    alloc: Global,
    rows: &[(Call<K, V>, Wanted<'_, K, V>)],
) -> Result<bool, OOMError> {
    let mut map: Congee<K, V> = Congee::new(alloc, DefaultAllocator {})?;
    let count = list_wanted(alloc, &mut map, rows)?;
    Ok(count == rows.len())
}

/// What a call by numbers has to return.
#[derive(Clone, Copy)]
pub(super) enum NumberWanted<'a, V: Copy> {
    Old(Option<V>),
    Ranged(&'a [([u8; 8], u64)]),
}

fn is_number_wanted<V: Word + PartialEq>(
    reply: &U64Reply<V>,
    wanted: &NumberWanted<'_, V>,
) -> bool {
    match wanted {
        NumberWanted::Old(expected) => matches!(reply, U64Reply::Old(value) if value == expected),
        NumberWanted::Ranged(expected) =>
            matches!(reply, U64Reply::Ranged(r) if r.as_slice() == *expected),
    }
}

fn number_list_of<V: Word>(
    alloc: Global,
    rows: &[(U64Call<V>, NumberWanted<'_, V>)],
) -> Result<Vec<U64Call<V>>, OOMError> {
    let mut calls = Vec::new(alloc);
    for (call, _) in rows {
        calls.push(*call)?;
    }
    Ok(calls)
}

// How many replies, from the first on, are the wanted ones.
fn count_number_wanted<V: Word + PartialEq>(
    replies: &[U64Reply<V>],
    rows: &[(U64Call<V>, NumberWanted<'_, V>)],
) -> usize {
    for i in 0..rows.len() {
        match replies.get(i) {
            Some(reply) if is_number_wanted(reply, &rows[i].1) => {}
            _ => return i,
        }
    }
    rows.len()
}

// Makes the rows' calls by numbers as one list. How many replies, from the first on, are the wanted ones.
fn number_list_wanted<V: Word + PartialEq>(
    alloc: Global,
    map: &mut U64Congee<V>,
    rows: &[(U64Call<V>, NumberWanted<'_, V>)],
) -> Result<usize, OOMError> {
    let calls = number_list_of(alloc, rows)?;
    let replies = run_u64_calls(alloc, map, &calls)?;
    Ok(count_number_wanted(&replies, rows))
}

/// Makes the calls of the rows on a new map by numbers, as one list. Whether the replies are the wanted ones.
pub(super) fn number_list_right<V: Word + PartialEq>(
    alloc: Global,
    rows: &[(U64Call<V>, NumberWanted<'_, V>)],
) -> Result<bool, OOMError> {
    let mut map: U64Congee<V> = U64Congee::new(alloc)?;
    let count = number_list_wanted(alloc, &mut map, rows)?;
    Ok(count == rows.len())
}
