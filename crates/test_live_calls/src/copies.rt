//! A copy alone, and beside a writer.

use crate::calls::{is_new, made};
use live_copies::copy::copy;
use live_growth::map::{Congee, Refusal};
use std::alloc::Global;
use std::thread::{Threads, join};

// Keys that lie so far apart.
#[derive(Clone, Copy)]
struct Keys {
    first: u64,
    step: u64,
    count: u32,
}

// Those of a few leaves, of leaves with one key, of each form, and some spread at random. None is twice.
const KEYS: [Keys; 7] = [
    Keys {
        first: 0,
        step: 1,
        count: 0,
    },
    Keys {
        first: 7,
        step: 1,
        count: 1,
    },
    Keys {
        first: 0,
        step: 1,
        count: 3000,
    },
    Keys {
        first: 0,
        step: 0x0100_0000_0000_0000,
        count: 256,
    },
    Keys {
        first: 5,
        step: 0x0001_0002_0003_0005,
        count: 700,
    },
    Keys {
        first: 1,
        step: 0x9e37_79b9_7f4a_7c15,
        count: 3000,
    },
    Keys {
        first: 0x1020_3040_5060_7080,
        step: 0x0001_0001,
        count: 900,
    },
];

// The value of a key.
fn value_of(key: u64) -> u64 {
    key ^ 0x55
}

// Inserts these keys, each again where another thread is in the way. Returns how many were new.
fn fill(map: &Congee, alloc: Global, keys: Keys) -> u32 {
    let mut guard = map.pin();
    let mut key = keys.first;
    let mut new = 0u32;
    for _ in 0..keys.count {
        if is_new(map, alloc, &mut guard, key, value_of(key)) {
            new = new.wrapping_add(1);
        }
        key = key.wrapping_add(keys.step);
    }
    new
}

// A copy, also where memory is refused once.
fn copied(map: &Congee, alloc: Global) -> Option<Vec<(u64, u64)>> {
    let mut guard = map.pin();
    for _ in 0..100_000u32 {
        if let Ok(pairs) = copy(map, alloc, &mut guard) {
            return Some(pairs);
        }
    }
    None
}

// Whether they ascend, and each key has its own value.
fn are_right(pairs: &[(u64, u64)]) -> bool {
    let mut last = 0u64;
    for i in 0..pairs.len() {
        let (key, value) = pairs[i];
        if i > 0 && key <= last {
            return false;
        }
        if value != value_of(key) {
            return false;
        }
        last = key;
    }
    true
}

// Whether a key is among pairs that ascend.
fn has(pairs: &[(u64, u64)], key: u64) -> bool {
    pairs.binary_search(&(key, value_of(key))).is_ok()
}

// Whether all these keys are.
fn has_all(pairs: &[(u64, u64)], keys: Keys) -> bool {
    let mut key = keys.first;
    for _ in 0..keys.count {
        if !has(pairs, key) {
            return false;
        }
        key = key.wrapping_add(keys.step);
    }
    true
}

// Whether the copy of a map with these keys has their pairs and no others, and the map takes one more key then.
fn copies(alloc: Global, keys: Keys) -> bool {
    let Some(map) = made(alloc) else {
        return false;
    };
    if fill(&map, alloc, keys) != keys.count {
        return false;
    }
    let Some(pairs) = copied(&map, alloc) else {
        return false;
    };
    if pairs.len() != keys.count as usize || !are_right(&pairs) || !has_all(&pairs, keys) {
        return false;
    }
    let mut guard = map.pin();
    let more = 0x0f0f_0f0f_0f0f_0f0e;
    is_new(&map, alloc, &mut guard, more, value_of(more))
}

#[test]
fn a_copy_has_the_pairs_that_were_inserted(rt: HostRuntime) {
    for keys in KEYS {
        assert!(rt; copies(rt.alloc(), keys));
    }
}

// Copies again and again, while another thread inserts these keys, until all are there. Whether each copy has the first ones
// of them, and no others.
fn copies_on(map: &Congee, alloc: Global, keys: Keys) -> bool {
    for _ in 0..1_000_000u32 {
        let Some(pairs) = copied(map, alloc) else {
            return false;
        };
        let count = pairs.len();
        if count > keys.count as usize || !are_right(&pairs) {
            return false;
        }
        let first = Keys {
            count: count as u32,
            ..keys
        };
        if !has_all(&pairs, first) {
            return false;
        }
        if count == keys.count as usize {
            return true;
        }
    }
    false
}

// Whether no node stays locked after a copy that may be refused: each key is inserted again, and all are copied then.
fn is_free_again(map: &Congee, alloc: Global, keys: Keys) -> bool {
    if fill(map, alloc, keys) != keys.count {
        return false;
    }
    let mut guard = map.pin();
    let refused = match copy(map, alloc, &mut guard) {
        Ok(pairs) => pairs.len() != keys.count as usize,
        Err(refusal) => refusal != Refusal::OutOfMemory,
    };
    if refused || fill(map, alloc, keys) != 0 {
        return false;
    }
    match copied(map, alloc) {
        Some(pairs) => pairs.len() == keys.count as usize && has_all(&pairs, keys),
        None => false,
    }
}

// It passes whichever allocation is refused.
#[test]
fn a_copy_that_is_refused_memory_leaves_all_nodes_free(rt: HostRuntime) {
    let keys = Keys {
        first: 0,
        step: 0x0001_0002_0003_0005,
        count: 300,
    };
    if let Some(map) = made(rt.alloc()) {
        assert!(rt; is_free_again(&map, rt.alloc(), keys));
    } else {
        assert!(rt; false);
    }
}

// One thread inserts keys, and another copies them as they come.
fn by_two<R: Threads + Sync>(rt: &R, alloc: Global, keys: Keys) -> Option<(u32, bool)> {
    let map = made(alloc)?;
    let shared = &map;
    Some(join(
        rt,
        || fill(shared, alloc, keys),
        || copies_on(shared, alloc, keys),
    ))
}

#[test]
fn a_copy_beside_a_writer_is_of_one_moment(rt: HostRuntime) {
    let far = Keys {
        first: 1,
        step: 0x9e37_79b9_7f4a_7c15,
        count: 600,
    };
    assert!(rt; by_two(&rt, rt.alloc(), far) == Some((600, true)));
    let near = Keys {
        first: 3,
        step: 1,
        count: 2000,
    };
    assert!(rt; by_two(&rt, rt.alloc(), near) == Some((2000, true)));
}
