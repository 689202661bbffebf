//! Calls that remove many pairs, and one that gives their memory back.
//!
//! Tested in `tools/c-library`.

ghost use Rattle.std.specs.Prelude.{◌≡◌, ◌+◌, [], length};
ghost use Rattle.spec_map.specs.Map.{between};
ghost use Rattle.congee_tree.specs.Bulk.{outside};
ghost use Rattle.node_stats.specs.LevelCounts.{capped};
ghost use Rattle.tree_edit.specs.Tree.{ChargesForNodes, root_alone};
ghost use Rattle.congee_c.specs.Limit.{limit_charge};

use crate::handle::Handle;
use crate::narrowed;

/// Removes all pairs; of the map's nodes the root stays. Takes no memory, and is never refused.
#[unsafe(no_mangle)]
pub extern "C" fn congee_c_clear(handle: &mut Handle)
    ensures pairs { handle.new.held.map.pairs ≡ [] }
    ensures nodes { handle.new.held.map.nodes ≡ root_alone }
    ensures charge { ChargesForNodes limit_charge handle.old.held.map handle.new.held.map }
    ensures place { handle.new.ptr ≡ handle.old.ptr }
{
    handle.as_mut().map.clear();
}

/// Gives memory back that is held for nodes that are gone, as `Congee::shrink_to_fit`. The map has the same pairs, nodes and
/// charge. Is never refused.
#[unsafe(no_mangle)]
pub extern "C" fn congee_c_shrink_to_fit(handle: &mut Handle)
    ensures same { handle.new.held.map ≡ handle.old.held.map }
    ensures place { handle.new.ptr ≡ handle.old.ptr }
{
    handle.as_mut().map.shrink_to_fit();
}

/// Removes the pairs with keys from `start` to `last`, both included, and answers how many; saturates at `u64::MAX`. Is
/// never refused.
#[unsafe(no_mangle)]
pub extern "C" fn congee_c_remove_range_inclusive(handle: &mut Handle, start: u64, last: u64) -> u64
    ensures count { result
        ≡ capped (length (between handle.old.held.map.pairs start (last + 1))) }
    ensures pairs { handle.new.held.map.pairs
        ≡ outside handle.old.held.map.pairs start (last + 1) }
    ensures charge { ChargesForNodes limit_charge handle.old.held.map handle.new.held.map }
    ensures place { handle.new.ptr ≡ handle.old.ptr }
{
    narrowed(handle.as_mut().map.remove_range_inclusive(&start, &last))
}
