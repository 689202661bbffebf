//! Worked examples of `CongeeArc`.

use congee_owned::{CongeeArc, OOMError};
use face_runs::payload_calls::{PayloadCall, PayloadReply, run_payload_calls};
use std::alloc::{AllocError, Global};
use std::sync::Arc;
use std::test::Fail;

type Text = &'static str;

fn owner_of(alloc: Global, text: Text) -> Result<Arc<String>, AllocError> {
    Ok(Arc::new(alloc, String::from_str(alloc, text)?)?)
}

// Whether this is an owner of the text, or none is where none is wanted.
fn is_owner(owner: Option<&Arc<String>>, wanted: Option<Text>) -> bool {
    match (owner, wanted) {
        (Some(owner), Some(text)) => owner.as_str() == text,
        (None, None) => true,
        _ => false,
    }
}

/// A call on a map of texts.
#[derive(Clone, Copy, Debug)]
enum Said {
    Get(u64),
    Insert(u64, Text),
    Remove(u64),
    Change(u64, Text),
    IsEmpty,
    Keys,
}

/// What it has to return.
#[derive(Clone, Copy)]
enum Wanted {
    Seen(Option<Text>),
    Old(Option<Text>),
    Tested(bool),
    Listed(&'static [u64]),
}

// The call of the row.
fn made_of(alloc: Global, said: Said) -> Result<PayloadCall<u64, Arc<String>>, AllocError> {
    Ok(match said {
        Said::Get(key) => PayloadCall::Get(key),
        Said::Insert(key, new) => PayloadCall::Insert(key, owner_of(alloc, new)?),
        Said::Remove(key) => PayloadCall::Remove(key),
        Said::Change(key, new) => PayloadCall::ComputeIfPresent(key, Some(owner_of(alloc, new)?)),
        Said::IsEmpty => PayloadCall::IsEmpty,
        Said::Keys => PayloadCall::Keys,
    })
}

fn is_wanted(reply: &PayloadReply<u64, Arc<String>>, wanted: Wanted) -> bool {
    match wanted {
        Wanted::Seen(text) =>
            matches!(reply, PayloadReply::Seen(owner) if is_owner(owner.as_ref(), text)),
        Wanted::Old(text) =>
            matches!(reply, PayloadReply::Old(owner) if is_owner(owner.as_ref(), text)),
        Wanted::Tested(expected) =>
            matches!(reply, PayloadReply::Tested(test) if *test == expected),
        Wanted::Listed(expected) =>
            matches!(reply, PayloadReply::Listed(keys) if keys.as_slice() == expected),
    }
}

fn calls_of(
    alloc: Global,
    rows: &[(Said, Wanted)],
) -> Result<Vec<PayloadCall<u64, Arc<String>>>, OOMError> {
    let mut calls = Vec::new(alloc);
    for (said, _) in rows {
        calls.push(made_of(alloc, *said)?)?;
    }
    Ok(calls)
}

// How many replies, from the first on, are the wanted ones.
fn count_wanted(replies: &[PayloadReply<u64, Arc<String>>], rows: &[(Said, Wanted)]) -> usize {
    for i in 0..rows.len() {
        match replies.get(i) {
            Some(reply) if is_wanted(reply, rows[i].1) => {}
            _ => return i,
        }
    }
    rows.len()
}

fn replies_to(
    alloc: Global,
    map: &mut CongeeArc<u64, String>,
    rows: &[(Said, Wanted)],
) -> Result<Vec<PayloadReply<u64, Arc<String>>>, OOMError> {
    run_payload_calls(alloc, map, calls_of(alloc, rows)?)
}

fn wanted_replies(
    alloc: Global,
    map: &mut CongeeArc<u64, String>,
    rows: &[(Said, Wanted)],
) -> Result<usize, OOMError> {
    Ok(count_wanted(&replies_to(alloc, map, rows)?, rows))
}

// Whether the calls, made on a new map, have the wanted replies.
fn run_right(alloc: Global, rows: &[(Said, Wanted)]) -> Result<bool, OOMError> {
    let count = wanted_replies(alloc, &mut CongeeArc::new(alloc)?, rows)?;
    Ok(count == rows.len())
}

const REPLACED: [(Said, Wanted); 9] = [
    (Said::IsEmpty, Wanted::Tested(true)),
    (Said::Insert(1, "test1"), Wanted::Old(None)),
    (Said::Insert(1, "test2"), Wanted::Old(Some("test1"))),
    (Said::Get(1), Wanted::Seen(Some("test2"))),
    (Said::IsEmpty, Wanted::Tested(false)),
    (Said::Remove(1), Wanted::Old(Some("test2"))),
    (Said::IsEmpty, Wanted::Tested(true)),
    (Said::Get(1), Wanted::Seen(None)),
    (Said::Remove(1), Wanted::Old(None)),
];

const CHANGED: [(Said, Wanted); 7] = [
    (Said::Insert(1, "a"), Wanted::Old(None)),
    (Said::Get(1), Wanted::Seen(Some("a"))),
    (Said::Change(1, "b"), Wanted::Old(Some("a"))),
    (Said::Get(2), Wanted::Seen(None)),
    (Said::Keys, Wanted::Listed(&[1])),
    (Said::Remove(1), Wanted::Old(Some("b"))),
    (Said::IsEmpty, Wanted::Tested(true)),
];

#[test]
fn gives_back_what_is_replaced(rt: HostRuntime) -> Result<(), Fail> {
    assert!(rt; run_right(rt.alloc(), &REPLACED)?);
    assert!(rt; run_right(rt.alloc(), &CHANGED)?);
    Ok(())
}

// Replaces the current value of the key by the owner, or removes the key for none. Returns whether the closure was
// called with the wanted text, or wasn't called where none is wanted, and whether the call returned that text.
fn changes(
    map: &mut CongeeArc<u64, String>,
    key: u64,
    wanted: Option<Text>,
    given: Option<Arc<String>>,
) -> bool {
    let mut seen = wanted.is_none();
    let mut next = given;
    let mut change = |current: &Arc<String>| -> Option<Arc<String>> {
        seen = is_owner(Some(current), wanted);
        next.take()
    };
    let old = map.compute_if_present(key, &mut change);
    seen && is_owner(old.as_ref(), wanted)
}

// Whether computations change the text "hello" to the longer one, and remove that.
fn changes_hello(map: &mut CongeeArc<u64, String>, longer: Arc<String>) -> bool {
    let right = [
        changes(map, 1, Some("hello"), Some(longer)),
        is_owner(map.get(1), Some("hello world")),
        changes(map, 2, None, None),
        changes(map, 1, Some("hello world"), None),
        map.is_empty(),
    ];
    right == [true; 5]
}

fn changes_texts(alloc: Global, map: &mut CongeeArc<u64, String>) -> Result<bool, OOMError> {
    map.insert(1, owner_of(alloc, "hello")?)?;
    Ok(changes_hello(map, owner_of(alloc, "hello world")?))
}

fn changes_texts_on_new_map(alloc: Global) -> Result<bool, OOMError> {
    let mut map = CongeeArc::new(alloc)?;
    changes_texts(alloc, &mut map)
}

#[test]
fn computes_on_the_current_value(rt: HostRuntime) -> Result<(), Fail> {
    assert!(rt; changes_texts_on_new_map(rt.alloc())?);
    Ok(())
}
