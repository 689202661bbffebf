//! The first of an inner node's remaining places, by the node's form.
//!
//! Tested in `test_owned` and `tools/dev/try-commands`.

ghost use Rattle.std.specs.Prelude.{◌≡◌, [], ◌∷◌, IfSome, IfNone};
ghost use Rattle.node_base.specs.Rest.{rest_4, rest_16, rest_48, rest_256};

use node_base::iter::{Node4Iter, Node16Iter, Node48Iter, Node256Iter};
use tree_links::place::Place;

/// The first of the remaining places, after its byte.
#[inline(always)]
pub(crate) fn next_4<'a>(places: &mut Node4Iter<'a, Place<u64>>) -> Option<(u8, &'a Place<u64>)>
    ensures none { IfNone result (rest_4 places.old ≡ []) }
    ensures some { IfSome result (λ found. rest_4 places.old
        ≡ (found.0, found.1.now) ∷ rest_4 places.new) }
{
    places.next()
}

/// The first of the remaining places, after its byte.
#[inline(always)]
pub(crate) fn next_16<'a>(places: &mut Node16Iter<'a, Place<u64>>) -> Option<(u8, &'a Place<u64>)>
    ensures none { IfNone result (rest_16 places.old ≡ []) }
    ensures some { IfSome result (λ found. rest_16 places.old
        ≡ (found.0, found.1.now) ∷ rest_16 places.new) }
{
    places.next()
}

/// The first of the remaining places, after its byte.
#[inline(always)]
pub(crate) fn next_48<'a>(places: &mut Node48Iter<'a, Place<u64>>) -> Option<(u8, &'a Place<u64>)>
    ensures none { IfNone result (rest_48 places.old ≡ []) }
    ensures some { IfSome result (λ found. rest_48 places.old
        ≡ (found.0, found.1.now) ∷ rest_48 places.new) }
{
    places.next()
}

/// The first of the remaining places, after its byte.
#[inline(always)]
pub(crate) fn next_256<'a>(places: &mut Node256Iter<'a, Place<u64>>) -> Option<(u8, &'a Place<u64>)>
    ensures none { IfNone result (rest_256 places.old ≡ []) }
    ensures some { IfSome result (λ found. rest_256 places.old
        ≡ (found.0, found.1.now) ∷ rest_256 places.new) }
{
    places.next()
}
