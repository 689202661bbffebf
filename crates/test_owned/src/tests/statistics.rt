//! Statistics of trees: what is counted, and the texts.

use congee_owned::{Congee, DefaultAllocator, OOMError};
use std::alloc::Global;
use std::test::Fail;

// Puts the keys into a map, each with the value 42.
fn fill(map: &mut Congee<u64, u64>, keys: Keys) -> Result<(), OOMError> {
    let (first, step, count) = keys;
    for i in 0..count {
        map.insert(step.wrapping_mul(i).wrapping_add(first), 42)?;
    }
    Ok(())
}

// Whether the map's statistics have this text.
fn has_text(alloc: Global, map: &Congee<u64, u64>, wanted: &str) -> Result<bool, OOMError> {
    let stats = map.stats()?;
    let text = format!(in alloc; "{stats}")?;
    Ok(text.as_str() == wanted)
}

/// The first key, how far the others are from one another, and how many there are.
type Keys = (u64, u64, u64);

const ROWS: [(Keys, &str); 2] = [
    // an inner node below the root, and its three leaves: 6 * 192 + 3 of 5 * 768
    (
        (0, 256, 3),
        "Level: 0 --- || N4:        0,     0.00 || N16:        0,     0.00 || N48:        0,     0.00 || N256:        1,     0.00 ||\n\
             Level: 1 --- || N4:        1,     0.75 || N16:        0,     0.00 || N48:        0,     0.00 || N256:        0,     0.00 ||\n\
             Level: 2 --- || N4:        3,     0.25 || N16:        0,     0.00 || N48:        0,     0.00 || N256:        0,     0.00 ||\n\
             Overall node count: 5, entry count: 7\n\
             Load factor: 0.30 (too low)\n\
             Active memory usage: 0 Mb\n\
             KV count: 3\n",
    ),
    // the first example: the pair (1, 42) alone
    (
        (1, 1, 1),
        "Level: 0 --- || N4:        0,     0.00 || N16:        0,     0.00 || N48:        0,     0.00 || N256:        1,     0.00 ||\n\
             Level: 1 --- || N4:        1,     0.25 || N16:        0,     0.00 || N48:        0,     0.00 || N256:        0,     0.00 ||\n\
             Overall node count: 2, entry count: 2\n\
             Load factor: 0.13 (too low)\n\
             Active memory usage: 0 Mb\n\
             KV count: 1\n",
    ),
];

fn reads(alloc: Global, keys: Keys, wanted: &str) -> Result<bool, OOMError> {
    let mut map = Congee::new(alloc, DefaultAllocator {})?;
    fill(&mut map, keys)?;
    has_text(alloc, &map, wanted)
}

#[test]
fn maps_have_these_texts(rt: HostRuntime) -> Result<(), Fail> {
    for (keys, wanted) in &ROWS {
        assert!(rt; reads(rt.alloc(), *keys, wanted)?);
    }
    Ok(())
}
