//! Under which bytes a node has keys of a range.
//!
//! Tested in `test_owned/scans`.

ghost use Rattle.std.specs.Prelude.{◌+◌};
ghost use Rattle.tree_walk.specs.inner.Scan.{IsWindow};

use node_base::base_node::BaseNode;

/// Under which bytes a node has keys of a range: not below `from`, and below `to`, which is 256 at most.
#[derive(Drop)]
pub(crate) struct Window {
    /// The least key that begins with the node's prefix.
    pub(crate) first: u64,
    pub(crate) from: usize,
    pub(crate) to: usize,
}

/// Where the keys from `start` on and up to `last` are in a node with this base.
pub(crate) fn window_of(base: &BaseNode, start: u64, last: u64) -> Window
    ensures { IsWindow base.now.prefix start (last + 1) result }
{
    let first = base.first_key();
    let shift = 8 * (7 - base.prefix().len());
    let from = start.saturating_sub(first) >> shift;
    let to = if first <= last {
        ((last - first) >> shift).min(255) + 1
    } else {
        0
    };
    Window {
        first,
        from: from as usize,
        to: to as usize,
    }
}
