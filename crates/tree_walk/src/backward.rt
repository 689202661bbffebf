//! The last of the children that an iterator has yet to return, by the node's form: so a node is gone through both ways.
//!
//! Tested in `test_owned/neighbours`.

ghost use Rattle.std.specs.Prelude.{◌≡◌, [], ◌∷◌, ◌++◌, IfSome, IfNone};
ghost use Rattle.node_base.specs.Rest.{rest_4, rest_16, rest_48, rest_256};

use node_base::iter::{Node4Iter, Node16Iter, Node48Iter, Node256Iter};
use node_base::row::last_placed;

/// Takes the last of the children, after its byte.
#[inline(always)]
pub(crate) fn last_4<'a, C>(left: &mut Node4Iter<'a, C>) -> Option<(u8, &'a C)>
    ensures none { IfNone result (rest_4 left.old ≡ []) }
    ensures some { IfSome result (λ found. rest_4 left.old
        ≡ rest_4 left.new ++ (found.0, found.1.now) ∷ []) }
{
    // (a byte that has no child beside it doesn't count)
    'bytes: while let Some((byte, before)) = left.keys.split_last() {
        left.keys = before;
        if let Some(child) = left.children.get(left.at.saturating_add(before.len())) {
            return Some((*byte, child));
        }
    }
    None
}

/// Takes the last of the children, after its byte.
#[inline(always)]
pub(crate) fn last_16<'a, C>(left: &mut Node16Iter<'a, C>) -> Option<(u8, &'a C)>
    ensures none { IfNone result (rest_16 left.old ≡ []) }
    ensures some { IfSome result (λ found. rest_16 left.old
        ≡ rest_16 left.new ++ (found.0, found.1.now) ∷ []) }
{
    // (a byte that has no child beside it doesn't count)
    'bytes: while let Some((byte, before)) = left.keys.split_last() {
        left.keys = before;
        if let Some(child) = left.children.get(before.len()) {
            return Some((*byte, child));
        }
    }
    None
}

/// Takes the last of the children, after its byte.
#[inline(always)]
pub(crate) fn last_48<'a, C>(left: &mut Node48Iter<'a, C>) -> Option<(u8, &'a C)>
    ensures none { IfNone result (rest_48 left.old ≡ []) }
    ensures some { IfSome result (λ found. rest_48 left.old
        ≡ rest_48 left.new ++ (found.0, found.1.now) ∷ []) }
{
    let to = left.last as usize + 1;
    let Some(byte) = last_placed(left.index, to, left.children.len()) else {
        return None;
    };
    if (byte as usize) < left.at {
        return None;
    }
    let child = &left.children[left.index[byte as usize] as usize];
    if byte == 0 {
        // (none is left)
        left.at = to;
    } else {
        left.last = byte - 1;
    }
    Some((byte, child))
}

/// Takes the last of the children, after its byte.
#[inline(always)]
pub(crate) fn last_256<'a, C>(left: &mut Node256Iter<'a, C>) -> Option<(u8, &'a C)>
    ensures none { IfNone result (rest_256 left.old ≡ []) }
    ensures some { IfSome result (λ found. rest_256 left.old
        ≡ rest_256 left.new ++ (found.0, found.1.now) ∷ []) }
{
    let to = left.last as usize + 1;
    let Some(byte) = left.places.last(to) else {
        return None;
    };
    if (byte as usize) < left.at {
        return None;
    }
    let child = left.places.get_filled(byte);
    if byte == 0 {
        // (none is left)
        left.at = to;
    } else {
        left.last = byte - 1;
    }
    Some((byte, child))
}
