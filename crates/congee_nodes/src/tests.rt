//! Worked rows of the node forms, each public call at each form, and growth through all of them.

mod allocator;
mod payload;
mod stats;
mod tree_node;

ghost use Rattle.std.specs.Prelude.{◌≡◌, ℕ, ◌+◌, []};
ghost use Rattle.node_base.specs.Form.{Fits};

use crate::base_node::{CopyTo, Node, NodeSize, NodeType};
use crate::node_4::Node4;
use crate::node_16::Node16;
use crate::node_48::Node48;
use crate::node_256::Node256;
use node_base::few::Few;
use spec_map::error::OOMError;
use std::alloc::Global;
use std::mem::size_of;
use std::process::Abort;
use std::test::Fail;

// Puts a child under a byte, whether or not it has one; false where the node is full.
fn put<N: Node<u32>>(node: &mut N, byte: u8, child: u32) -> bool {
    if node.get_child(byte).is_some() {
        node.change(byte, child);
        return true;
    }
    if node.is_full() {
        return false;
    }
    node.insert(byte, child);
    true
}

// Takes a child out, where there is one.
fn take<N: Node<u32>>(node: &mut N, byte: u8) -> Option<u32> {
    if node.get_child(byte).is_none() {
        return None;
    }
    Some(node.remove(byte))
}

// Whether a scan returns exactly these.
fn scans<N: Node<u32>>(node: &N, start: u8, end: u8, wanted: &[(u8, u32)]) -> bool {
    let mut children = node.get_children(start, end);
    for (byte, child) in wanted {
        match children.next() {
            Some((found, value)) if found == *byte && value == child => {}
            _ => return false,
        }
    }
    children.next().is_none()
}

// Puts children under the highest bytes, 255 downward; how many went in.
fn fill<N: Node<u32>>(node: &mut N, most: u8) -> u8 {
    for i in 0..most {
        if !put(node, 255u8.wrapping_sub(i), u32::from(i)) {
            return i;
        }
    }
    most
}

// Puts these children in; whether there was room for all.
fn puts<N: Node<u32>>(node: &mut N, children: &[(u8, u32)]) -> bool {
    for (byte, child) in children {
        if !put(node, *byte, *child) {
            return false;
        }
    }
    true
}

// Removes the children under these bytes; whether they are the wanted ones.
fn takes<N: Node<u32>>(node: &mut N, wanted: &[(u8, Option<u32>)]) -> bool {
    for (byte, child) in wanted {
        if take(node, *byte) != *child {
            return false;
        }
    }
    true
}

// Whether these are the children under these bytes.
fn finds<N: Node<u32>>(node: &N, wanted: &[(u8, Option<u32>)]) -> bool {
    for (byte, child) in wanted {
        if node.get_child(*byte).copied() != *child {
            return false;
        }
    }
    true
}

// Whether the node has this form, prefix and number of children.
fn has_base<N: Node<u32>>(node: &N, form: NodeType, prefix: &[u8], count: u16) -> bool {
    let base = node.base();
    node.get_type() == form
        && base.get_type() == form
        && base.prefix() == prefix
        && base.value_count() == count
}

/// Bounds, and what a scan of a node with the children 1, 2, 3 under 10, 20, 30 returns between them.
type Scan = (u8, u8, &'static [(u8, u32)]);

const SCANS: [Scan; 6] = [
    (15, 25, &[(20, 2)]),
    (0, 9, &[]),
    (10, 30, &[(10, 1), (20, 2), (30, 3)]),
    (25, 15, &[]),
    (11, 255, &[(20, 2), (30, 3)]),
    (31, 255, &[]),
];

fn scans_rows<N: Node<u32>>(node: &N) -> bool {
    for (start, end, wanted) in &SCANS {
        if !scans(node, *start, *end, *wanted) {
            return false;
        }
    }
    true
}

/// What the children under some bytes have to be.
type Found = (u8, Option<u32>);

// The second child under 30 takes the place of the first.
const PUT: [(u8, u32); 4] = [(20, 2), (30, 9), (10, 1), (30, 3)];

const FOUND: [Found; 4] = [(10, Some(1)), (30, Some(3)), (29, None), (255, None)];

const TAKEN: [Found; 2] = [(20, Some(2)), (20, None)];

const LEFT: [(u8, u32); 2] = [(10, 1), (30, 3)];

const TAKEN_LAST: [Found; 2] = [(10, Some(1)), (30, Some(3))];

// Whether every call of the contract is right at one form. The node is empty at first, under the prefix 7, 8.
fn calls<N: Node<u32>>(node: &mut N, form: NodeType, capacity: Option<u16>) -> bool {
    let room = capacity.unwrap_or(60);
    let right = [
        has_base(node, form, &PREFIX, 0),
        puts(node, &PUT),
        has_base(node, form, &PREFIX, 3),
        scans_rows(node),
        finds(node, &FOUND),
        takes(node, &TAKEN),
        scans(node, 0, 255, &LEFT),
        takes(node, &TAKEN_LAST),
        u16::from(fill(node, 60)) == room,
        node.is_full() == capacity.is_some(),
        has_base(node, form, &PREFIX, room),
    ];
    right == [true; 11]
}

const PREFIX: [u8; 2] = [7, 8];

#[test]
fn every_call_at_every_form(rt: HostRuntime) -> Result<(), Fail> {
    let alloc = rt.alloc();
    assert!(rt; calls(&mut Node4::new(alloc, &PREFIX)?, NodeType::N4, Some(4)));
    assert!(rt; calls(&mut Node16::new(alloc, &PREFIX)?, NodeType::N16, Some(16)));
    assert!(rt; calls(&mut Node48::new(alloc, &PREFIX)?, NodeType::N48, Some(48)));
    assert!(rt; calls(&mut Node256::new(alloc, &PREFIX)?, NodeType::N256, None));
    Ok(())
}

// Fills an empty node with 48 children, and puts others in the place of six that are taken out.
fn uses_places_again<N: Node<u32>>(node: &mut N) -> bool {
    for byte in 0..48u8 {
        if !put(node, byte, u32::from(byte)) {
            return false;
        }
    }
    for byte in 24..30u8 {
        if take(node, byte) != Some(u32::from(byte)) {
            return false;
        }
    }
    for byte in 24..30u8 {
        if !put(node, byte, u32::from(byte).wrapping_add(100)) {
            return false;
        }
    }
    for byte in 0..48u8 {
        let more = if byte >= 24 && byte < 30 { 100 } else { 0 };
        if node.get_child(byte).copied() != Some(u32::from(byte).wrapping_add(more)) {
            return false;
        }
    }
    true
}

#[test]
fn removed_places_are_used_again(rt: HostRuntime) -> Result<(), Fail> {
    assert!(rt; uses_places_again(&mut Node48::new(rt.alloc(), &[])?));
    Ok(())
}

// Two children, of which the second is removed: its byte is still in the array, past the count.
fn forgets_a_byte<N: Node<u32>>(node: &mut N) -> bool {
    puts(node, &[(3, 30), (7, 70)]) && takes(node, &[(7, Some(70))]) && finds(node, &[(7, None)])
}

// Sixteen children under even bytes.
fn has_even_bytes<N: Node<u32>>(node: &mut N) -> bool {
    for i in 0..16u8 {
        if !put(node, i.wrapping_mul(2), u32::from(i)) {
            return false;
        }
    }
    finds(node, &[(30, Some(15)), (31, None)])
}

#[test]
fn bytes_past_the_count_never_match(rt: HostRuntime) -> Result<(), Fail> {
    assert!(rt; forgets_a_byte(&mut Node16::new(rt.alloc(), &[])?));
    assert!(rt; has_even_bytes(&mut Node16::new(rt.alloc(), &[])?));
    Ok(())
}

// Fills a node, into which so many go, and makes it larger by one child: 100 and the byte, under the byte.
fn grows<A: Node<u32>, B: Node<u32>>(
    rt: &impl Abort,
    mut old: A,
    mut into: B,
    room: u8,
    byte: u8,
) -> B
    requires empty { B.children into ≡ [] }
    requires room { (a : A) (n : ℕ) → Fits (A.form a) n → Fits (B.form into) (n + 1) }
{
    assert!(rt; fill(&mut old, 60) == room);
    let _ = old.base();
    assert!(rt; old.get_child(byte).is_none());
    old.copy_to(&mut into);
    assert!(rt; put(&mut into, byte, u32::from(byte).wrapping_add(100)));
    into
}

// Each node has its number as its prefix.
fn second(rt: &impl Abort, alloc: Global) -> Result<Node16<u32>, OOMError> {
    let first = Node4::new(alloc, &[1])?;
    Ok(grows(rt, first, Node16::new(alloc, &[2])?, 4, 0))
}

fn third(rt: &impl Abort, alloc: Global) -> Result<Node48<u32>, OOMError> {
    let second = second(rt, alloc)?;
    Ok(grows(rt, second, Node48::new(alloc, &[3])?, 15, 1))
}

fn fourth(rt: &impl Abort, alloc: Global) -> Result<Node256<u32>, OOMError> {
    let third = third(rt, alloc)?;
    Ok(grows(rt, third, Node256::new(alloc, &[4])?, 46, 2))
}

fn fifth(rt: &impl Abort, alloc: Global) -> Result<Node256<u32>, OOMError> {
    let fourth = fourth(rt, alloc)?;
    let mut last = Node256::new(alloc, &[5])?;
    fourth.copy_to(&mut last);
    Ok(last)
}

/// A prefix, the number of children, and what a scan from 0 up to a byte returns.
struct Grown {
    prefix: [u8; 1],
    count: u16,
    end: u8,
    low: &'static [(u8, u32)],
}

const SECOND: Grown = Grown {
    prefix: [2],
    count: 5,
    end: 255,
    low: &[(0, 100), (252, 3), (253, 2), (254, 1), (255, 0)],
};

const THIRD: Grown = Grown {
    prefix: [3],
    count: 17,
    end: 1,
    low: &[(0, 100), (1, 101)],
};

const FOURTH: Grown = Grown {
    prefix: [4],
    count: 49,
    end: 210,
    low: &[(0, 100), (1, 101), (2, 102), (210, 45)],
};

const FIFTH: Grown = Grown {
    prefix: [5],
    count: 49,
    end: 210,
    low: &[(0, 100), (1, 101), (2, 102), (210, 45)],
};

const HIGHEST: [Found; 1] = [(255, Some(0))];

fn has<N: Node<u32>>(node: &N, form: NodeType, wanted: &Grown) -> bool {
    has_base(node, form, &wanted.prefix, wanted.count)
        && finds(node, &HIGHEST)
        && scans(node, 0, wanted.end, wanted.low)
}

#[test]
fn growth_keeps_every_child(rt: HostRuntime) -> Result<(), Fail> {
    assert!(rt; has(&second(&rt, rt.alloc())?, NodeType::N16, &SECOND));
    assert!(rt; has(&third(&rt, rt.alloc())?, NodeType::N48, &THIRD));
    assert!(rt; has(&fourth(&rt, rt.alloc())?, NodeType::N256, &FOURTH));
    assert!(rt; has(&fifth(&rt, rt.alloc())?, NodeType::N256, &FIFTH));
    Ok(())
}

// Whether each byte has three times itself.
fn has_every_byte<N: Node<u32>>(node: &N) -> bool {
    for byte in 0..=255u8 {
        if node.get_child(byte).copied() != Some(u32::from(byte).wrapping_mul(3)) {
            return false;
        }
    }
    true
}

// Ascending, descending and without order: an odd step comes to each byte once.
const STEPS: [u8; 3] = [1, 255, 167];

// Fills an empty node, its bytes in steps of so many. Whether each call is then right, and once a child is out and in
// again.
fn fills_every_byte<N: Node<u32>>(node: &mut N, step: u8) -> bool {
    let mut room = true;
    for i in 0..=255u8 {
        let byte = i.wrapping_mul(step);
        room = put(node, byte, u32::from(byte).wrapping_mul(3)) && room;
    }
    let right = [
        room,
        has_every_byte(node),
        scans(node, 253, 255, &[(253, 759), (254, 762), (255, 765)]),
        // a change, and a removal
        puts(node, &[(77, 1), (0, 7)]),
        takes(node, &[(77, Some(1)), (77, None), (0, Some(7))]),
        finds(
            node,
            &[(0, None), (1, Some(3)), (77, None), (255, Some(765))],
        ),
        scans(node, 76, 78, &[(76, 228), (78, 234)]),
        puts(node, &[(77, 231), (0, 0)]),
        has_every_byte(node) && node.base().value_count() == 256,
    ];
    right == [true; 9]
}

#[test]
fn a_full_node_finds_each_child(rt: HostRuntime) -> Result<(), Fail> {
    for step in STEPS {
        assert!(rt; fills_every_byte(&mut Node256::new(rt.alloc(), &[])?, step));
    }
    Ok(())
}

const STATED: [(NodeType, u64); 4] = [
    (NodeType::N4, 64),
    (NodeType::N16, 168),
    (NodeType::N48, 672),
    (NodeType::N256, 2104),
];

#[test]
fn sizes_are_stated(rt: HostRuntime) {
    for (form, bytes) in STATED {
        assert!(rt; NodeSize::of(form).bytes() == bytes);
    }
    // what each takes in place for children of 8 bytes, and so what a table of nodes takes for one
    let sizes = [
        size_of::<Few<u64>>(),
        size_of::<Node4<u64>>(),
        size_of::<Node16<u64>>(),
        size_of::<Node48<u64>>(),
        size_of::<Node256<u64>>(),
    ];
    assert!(rt; sizes == [40, 56, 56, 48, 32]);
}
