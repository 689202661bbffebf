//! An inner node that takes one pair after the other, and loses them again: what is charged, and what is found. With more
//! than sixteen pairs its row grows in steps.

use congee_owned::{Budget, Congee};
use std::test::Fail;

type Limited = Congee<u64, u64, Budget>;

// A key that is alone in its leaf, under one byte of the node with the prefix 1, 0, 0, 0, 0, 0. The bytes are in no
// order: 0, 37, 10, 47, 20 and so on.
fn key(i: u64) -> u64 {
    0x0100_0000_0000_0000 + (i % 64) * 37 % 64 * 256
}

// What is charged for the root, a leaf for each pair, and the node above them.
fn charge(pairs: u64, node: u32) -> u128 {
    2104 + 64 * pairs as u128 + node as u128
}

// While pairs come, a node with so many is the smallest that has room for them.
fn grown(pairs: u64) -> u32 {
    match pairs {
        0 | 1 => 0,
        2..=4 => 64,
        5..=16 => 168,
        17..=48 => 672,
        _ => 2104,
    }
}

// While they go, it shrinks with 36, 12 and 3.
fn shrunk(pairs: u64) -> u32 {
    match pairs {
        0 => 0,
        1..=3 => 64,
        4..=12 => 168,
        13..=36 => 672,
        _ => 2104,
    }
}

// How many of the first 64 keys are found where so many were put.
fn found(map: &Limited) -> u64 {
    let mut found = 0u64;
    for i in 0..64u64 {
        if map.get(&key(i)) == Some(i) {
            found = found.wrapping_add(1);
        }
    }
    found
}

// How many pairs are put before one isn't charged as it should be, or another than it is lost.
fn right_puts(map: &mut Limited) -> u64 {
    for i in 0..64u64 {
        let put = map.insert(key(i), i) == Ok(None);
        if !put || map.charged() != charge(i + 1, grown(i + 1)) || found(map) != i + 1 {
            return i;
        }
    }
    64
}

// How many pairs are taken out before one isn't charged as it should be, or another than it is lost.
fn right_takes(map: &mut Limited) -> u64 {
    for i in 0..64u64 {
        let left = 63 - i;
        let taken = map.remove(&key(i)) == Some(i);
        if !taken || map.charged() != charge(left, shrunk(left)) || found(map) != left {
            return i;
        }
    }
    64
}

fn grows_and_shrinks(map: &mut Limited) -> bool {
    right_puts(map) == 64 && right_takes(map) == 64
}

#[test]
fn inner_nodes_grow_and_shrink(rt: HostRuntime) -> Result<(), Fail> {
    assert!(rt; grows_and_shrinks(&mut Congee::new(rt.alloc(), Budget::new(10_000))?));
    Ok(())
}
