//! The children of a node, as a reader finds them.
ghost use Rattle.std.specs.Prelude.{◌≡◌, ◌<◌, ◌≤◌, IfSome};
ghost use Rattle.live_nodes.specs.Levels.{up, digit};
ghost use Rattle.live_reads.specs.Paths.{Names, Sights, Keeps};
ghost use Rattle.live_copies.specs.inner.Children.{IsChild, IsFound};

use live_layout::form::{form_below, slot_below};
use live_layout::nearest::nearest;
use live_nodes::rows::SharedWords;
use live_reads::path::{Nodes, Seat, byte_at, look, open};
use live_reads::prefix_match::{PrefixMatch, enter, meet};
use live_scans::keys::upper;
use std::marker::Brand;

// How often a child is tried that a writer is busy at.
const TRIES: u32 = 256;

/// A child of a node: its name, its height, a key that it has, and the key's byte in the node above.
#[derive(Clone, Copy, Debug, PartialEq, Eq)]
pub(crate) struct Child {
    pub(crate) name: u64,
    pub(crate) height: usize,
    pub(crate) key: u64,
    pub(crate) byte: u8,
}

// The key with another byte at a height, and all lower bytes 0.
fn with_byte(key: u64, height: usize, byte: u8) -> u64 {
    if height == 0 || height > 8 {
        return key;
    }
    let shift = 8 * (height - 1) as u32;
    let above = if height == 8 {
        0
    } else {
        key >> (shift + 8) << (shift + 8)
    };
    above | (byte as u64) << shift
}

// The next child from a byte on, as it seems: its byte and its word. A writer may come in between.
fn next_byte(nodes: &Nodes, name: u64, from: u8, seat: &mut Seat) -> Option<Option<(u8, u64)>>
    requires book { seat.old.book ≡ nodes.now }
    requires sighted { Sights seat.old.view name }
    ensures book { seat.new.book ≡ seat.old.book }
    ensures id { seat.new.id ≡ seat.old.id }
    ensures keeps { Keeps seat.old.view seat.new.view }
    ensures seen { seat.new.view.client.seen ≡ seat.old.view.client.seen }
{
    let here = open(nodes, name, seat)?;
    let form = form_below(name);
    let row = SharedWords { words: here.words };
    let found = nearest(&row, form, true, from, seat);
    Some(found)
}

// A node with a key that it has, near to this one. `None` where a writer came in between.
fn meet_some(nodes: &Nodes, name: u64, key: u64, byte: u8, seat: &mut Seat) -> Option<Child>
    requires book { seat.old.book ≡ nodes.now }
    requires sighted { Sights seat.old.view name }
    ensures book { seat.new.book ≡ seat.old.book }
    ensures id { seat.new.id ≡ seat.old.id }
    ensures keeps { Keeps seat.old.view seat.new.view }
    ensures seen { seat.new.view.client.seen ≡ seat.old.view.client.seen }
    ensures child { IfSome result (λ c. Names seat.new.view c.name c.key c.height
        × (1 ≤ c.height) × (c.byte ≡ byte)) }
{
    let mut key = key;
    for _ in 0..8 {
        let met = meet(nodes, name, key, seat)?;
        match met.prefix_match {
            PrefixMatch::Covers(height) => {
                return Some(Child {
                    name,
                    height,
                    key,
                    byte,
                });
            }
            PrefixMatch::Leaves(at, other) => key = with_byte(key, at, other),
        }
    }
    None
}

// The name of the child under a key's byte. `None` where there is none, or a writer came in between.
fn name_under(nodes: &Nodes, name: u64, height: usize, key: u64, seat: &mut Seat) -> Option<u64>
    requires book { seat.old.book ≡ nodes.now }
    requires sighted { Sights seat.old.view name }
    requires height { (2 ≤ height) × (height ≤ 8) }
    ensures book { seat.new.book ≡ seat.old.book }
    ensures id { seat.new.id ≡ seat.old.id }
    ensures keeps { Keeps seat.old.view seat.new.view }
    ensures seen { seat.new.view.client.seen ≡ seat.old.view.client.seen }
    ensures below { IfSome result (λ below. Sights seat.new.view below) }
{
    let here = enter(nodes, name, height, key, seat)?;
    match look::<Brand>(here, name, height, key, seat) {
        Some(Some(word)) => Some(slot_below(word)),
        Some(None) => None,
        None => None,
    }
}

// The child, if it is lower than this height, and its key has that byte, and begins like this one above.
fn fitting(child: Child, height: usize, key: u64, byte: u8) -> Option<Child>
    requires height { (2 ≤ height) × (height ≤ 8) }
    ensures same { IfSome result (λ c. c ≡ child) }
    ensures fits { IfSome result (λ c. (c.height < height) × (1 ≤ c.name)
        × (up height c.key ≡ up height key) × (digit height c.key ≡ byte) × (c.byte ≡ byte)) }
{
    if child.height >= height || child.name == 0 || child.byte != byte {
        return None;
    }
    if byte_at(child.key, height) != byte || upper(child.key, height) != upper(key, height) {
        return None;
    }
    Some(child)
}

// A child under a byte, with a key that it has.
fn child_under(
    nodes: &Nodes,
    name: u64,
    height: usize,
    key: u64,
    byte: u8,
    seat: &mut Seat,
) -> Option<Child>
    requires book { seat.old.book ≡ nodes.now }
    requires sighted { Sights seat.old.view name }
    requires height { (2 ≤ height) × (height ≤ 8) }
    ensures book { seat.new.book ≡ seat.old.book }
    ensures id { seat.new.id ≡ seat.old.id }
    ensures keeps { Keeps seat.old.view seat.new.view }
    ensures seen { seat.new.view.client.seen ≡ seat.old.view.client.seen }
    ensures child { IfSome result (λ c. IsChild seat.new.view key height c × (c.byte ≡ byte)) }
{
    let first = with_byte(key, height, byte);
    let below = name_under(nodes, name, height, first, seat)?;
    let child = meet_some(nodes, below, first, byte, seat)?;
    fitting(child, height, key, byte)
}

// The next child from a byte on, if there is one.
fn try_next(
    nodes: &Nodes,
    name: u64,
    height: usize,
    key: u64,
    from: u8,
    seat: &mut Seat,
) -> Option<Option<Child>>
    requires book { seat.old.book ≡ nodes.now }
    requires sighted { Sights seat.old.view name }
    requires height { (2 ≤ height) × (height ≤ 8) }
    ensures book { seat.new.book ≡ seat.old.book }
    ensures id { seat.new.id ≡ seat.old.id }
    ensures keeps { Keeps seat.old.view seat.new.view }
    ensures seen { seat.new.view.client.seen ≡ seat.old.view.client.seen }
    ensures found { IsFound seat.new.view key height from result }
{
    match next_byte(nodes, name, from, seat)? {
        None => Some(None),
        Some((byte, _)) if byte < from => None,
        Some((byte, _)) => match child_under(nodes, name, height, key, byte, seat) {
            Some(child) => Some(Some(child)),
            None => None,
        },
    }
}

/// The next child of a node from a byte on, as it seems. It has keys that begin like this one above the node's height. `None`
/// where writers came in between.
pub(crate) fn next_child(
    nodes: &Nodes,
    name: u64,
    height: usize,
    key: u64,
    from: u8,
    seat: &mut Seat,
) -> Option<Option<Child>>
    requires book { seat.old.book ≡ nodes.now }
    requires sighted { Sights seat.old.view name }
    requires height { (2 ≤ height) × (height ≤ 8) }
    ensures book { seat.new.book ≡ seat.old.book }
    ensures id { seat.new.id ≡ seat.old.id }
    ensures keeps { Keeps seat.old.view seat.new.view }
    ensures seen { seat.new.view.client.seen ≡ seat.old.view.client.seen }
    ensures found { IsFound seat.new.view key height from result }
{
    for _ in 0..TRIES {
        if let Some(found) = try_next(nodes, name, height, key, from, seat) {
            return Some(found);
        }
    }
    None
}
