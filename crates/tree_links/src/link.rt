//! What a node has under a byte, where the one pair of a leaf may be in the place of that leaf.
//!
//! Tested in `test_owned` and `tools/dev/try-commands`.

/// A payload, under the last byte of its key; the slot of the node below; or the one pair of the leaf below: the last
/// seven bytes of its key, and its payload.
#[derive(Drop)]
pub enum Link<P> {
    Payload(P),
    Slot(usize),
    Pair([u8; 7], P),
}

/// The same, where the payload stays in its node.
#[derive(Drop)]
pub enum LinkRef<'a, P> {
    Payload(&'a P),
    Slot(usize),
    Pair(&'a [u8; 7], &'a P),
}

/// What a key meets at a node.
#[derive(Drop)]
pub enum LinkMeeting<'a, P> {
    /// A prefix with which the key doesn't begin.
    Other,
    /// The leaf for the key. What it has under the key's last byte isn't looked up.
    Leaf,
    /// Nothing under the key's byte, in a node above the leaves.
    Nothing,
    /// The node in this slot, under the key's byte.
    Slot(usize),
    /// A leaf with one pair, under the key's byte, which is in this node: the last seven bytes of its key, and its
    /// payload. They aren't compared.
    Pair(&'a [u8; 7], &'a P),
}
