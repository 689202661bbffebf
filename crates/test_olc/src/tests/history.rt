//! The plain map with which the decided calls of a schedule are compared.

use spec_olc::trace::{Decision, Trace};
use spec_olc::types::{Op, Reply};
use std::alloc::{AllocError, Global};
use std::collections::BTreeMap;

// Stores a value, or removes the key.
fn put(map: &mut BTreeMap<u64, u64>, key: u64, value: Option<u64>) -> Result<(), AllocError> {
    match value {
        Some(value) => map.insert(key, value)?,
        None => map.remove(&key),
    };
    Ok(())
}

// Whether the map's reply is this one, where a closure is asked only for a present key.
fn is_computed(
    map: &mut BTreeMap<u64, u64>,
    key: u64,
    asked: Option<(Option<u64>, Option<u64>)>,
    both: Option<(u64, Option<u64>)>,
) -> Result<bool, AllocError> {
    let Some(old) = map.get(&key).copied() else {
        return Ok(asked.is_none() && both.is_none());
    };
    let Some((_, answer)) = asked else {
        return Ok(false);
    };
    put(map, key, answer)?;
    Ok(asked == Some((Some(old), answer)) && both == Some((old, answer)))
}

// Whether the map's reply is this one, where only a key that has the old value is changed.
fn is_exchanged(
    map: &mut BTreeMap<u64, u64>,
    key: u64,
    old: u64,
    new: Option<u64>,
    reply: Result<Option<u64>, Option<u64>>,
) -> Result<bool, AllocError> {
    let current = map.get(&key).copied();
    if current != Some(old) {
        return Ok(reply == Err(current));
    }
    put(map, key, new)?;
    Ok(reply == Ok(new))
}

// Whether the map replies so to a decided call, which is made on the map.
fn is_answered(map: &mut BTreeMap<u64, u64>, decision: &Decision) -> Result<bool, AllocError> {
    match (&decision.op, &decision.reply) {
        (Op::Insert(key, value), Reply::Old(old)) => Ok(map.insert(*key, *value)? == *old),
        (Op::Remove(key), Reply::Old(old)) => Ok(map.remove(key) == *old),
        (Op::ComputeIfPresent(key), Reply::Computed(both)) => {
            is_computed(map, *key, decision.asked, *both)
        }
        (Op::CompareExchange(key, old, new), Reply::Exchanged(reply)) => {
            is_exchanged(map, *key, *old, *new, *reply)
        }
        _ => Ok(false),
    }
}

/// Whether the content is the map.
pub(super) fn is_content(map: &BTreeMap<u64, u64>, content: &[(u64, u64)]) -> bool {
    for (key, value) in content {
        if map.get(key) != Some(value) {
            return false;
        }
    }
    map.len() == content.len()
}

/// Whether a plain map that makes the decided calls one after another gives their replies, and has the content then.
pub(super) fn is_legal(alloc: Global, trace: &Trace) -> Result<bool, AllocError> {
    let mut map = BTreeMap::new(alloc);
    for decision in &trace.decided {
        if !is_answered(&mut map, decision)? {
            return Ok(false);
        }
    }
    Ok(is_content(&map, &trace.content))
}
