//! Segments as a map takes them: each in its turn, up to the limit, and with all its keys found.

use live_growth::map::Congee;
use std::alloc::Global;
use std::test::Fail;
use word_segments::place::{before_of, fitting, size_of};

// Stores a key by a caller of its own, which takes a segment for it. Each key is far from the others.
fn stored(map: &Congee, alloc: Global, number: u64) -> bool {
    let mut guard = map.pin();
    map.insert(&alloc, &mut guard, key_of(number), number) == Ok(None)
}

fn key_of(number: u64) -> u64 {
    number.wrapping_mul(0x9e3779b97f4a7c15)
}

// Which segment, and the words of all before it. There are 32 of 512 words, 32 of 1,024 and so on, and from 224 on all have 65,536. The
// segment 384 is the first on a shelf.
const WORDS: [(u64, u64); 12] = [
    (0, 0),
    (1, 512),
    (31, 15_872),
    (32, 16_384),
    (33, 17_408),
    (63, 48_128),
    (64, 49_152),
    (223, 2_048_000),
    (224, 2_080_768),
    (225, 2_146_304),
    (383, 12_500_992),
    (384, 12_566_528),
];

// Segments, and how many words each has.
const SIZES: [(u64, usize); 6] = [
    (31, 512),
    (32, 1_024),
    (95, 2_048),
    (96, 4_096),
    (223, 32_768),
    (224, 65_536),
];

#[test]
fn segments_double_every_32(rt: HostRuntime) {
    for (number, words) in WORDS {
        assert!(rt; number < 1 << 44 && before_of(number) == words);
    }
    for (number, words) in SIZES {
        assert!(rt; size_of(number) == words);
    }
}

// How many segments have the words before them that they should. The map's first one has its root, and each of the others a key.
fn right_segments(map: &Congee, alloc: Global) -> usize {
    let mut right = 0usize;
    let mut next = 0u64;
    for (number, words) in WORDS {
        for other in next..number {
            let _ = stored(map, alloc, other);
        }
        if map.usage().0 == words.wrapping_add(size_of(number) as u64).wrapping_mul(8) {
            right = right.wrapping_add(1);
        }
        next = number;
    }
    right
}

// How many of so many keys have their value.
fn found(map: &Congee, count: u64) -> u64 {
    let mut right = 0u64;
    for number in 0..count {
        if map.get(&mut map.pin(), key_of(number)) == Ok(Some(number)) {
            right = right.wrapping_add(1);
        }
    }
    right
}

#[test]
fn keys_are_found_in_each_segment(rt: HostRuntime) -> Result<(), Fail> {
    let map = Congee::new(rt.alloc())?;
    assert!(rt; right_segments(&map, rt.alloc()) == WORDS.len());
    assert!(rt; found(&map, 385) == 384);
    Ok(())
}

// Limits, and how many segments each is for, of how many bytes.
const LIMITS: [(u64, u64, u64); 9] = [
    (0, 0, 0),
    (4_095, 0, 0),
    (4_096, 1, 4_096),
    (8_191, 1, 4_096),
    (8_192, 2, 8_192),
    (139_263, 32, 131_072),
    (139_264, 33, 139_264),
    (1_048_575, 99, 1_015_808),
    (1_048_576, 100, 1_048_576),
];

// How many segments a map takes below a limit, and their bytes. There is no map without one.
fn within(alloc: Global, limit: u64) -> (u64, u64) {
    let Ok(map) = Congee::with_limit(alloc, limit) else {
        return (0, 0);
    };
    let mut count = 1u64;
    for number in 0..200u64 {
        if stored(&map, alloc, number) {
            count = count.wrapping_add(1);
        }
    }
    (count, map.usage().0)
}

#[test]
fn no_segment_comes_in_past_the_limit(rt: HostRuntime) {
    for (limit, segments, bytes) in LIMITS {
        assert!(rt; fitting(limit) == segments);
        assert!(rt; within(rt.alloc(), limit) == (segments, bytes));
    }
}
