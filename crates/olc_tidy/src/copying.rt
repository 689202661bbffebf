//! The Make of a cleanup: a copy of the node in the next smaller form.
//!
//! Tested in `tools/dev/try-schedules` and `test_olc/cleanup_owners`.

ghost use Rattle.std.specs.Prelude.{◌≡◌, ◌≤◌, IfSome, IsTrue, Some, length, true};
ghost use Rattle.node_base.specs.Form.{few_in, smaller_form};
ghost use Rattle.spec_olc.specs.Kinds.{report_of};
ghost use Rattle.spec_olc.specs.declared.types.Env.{Env};
ghost use Rattle.olc_state.specs.inner.Meant.{meant_node};
ghost use Rattle.olc_state.specs.inner.CleanupFacts.{smaller_of};
ghost use Rattle.olc_state.specs.inner.Stocks.{IsStoreSound};
ghost use Rattle.olc_write.specs.inner.Makings.{AreOfKind};
ghost use Rattle.olc_tidy.specs.inner.Tidying.{KnowsTidy, TidyMoves, stepped};

use node_base::base_node::NodeType;
use node_table::allocator::Allocator;
use node_table::tree_node::TreeNode;
use olc_state::cleanup::{Cleanup, Tidy};
use olc_state::stage::{Stage, Task};
use olc_state::stepped::{Stepped, going, node_at};
use olc_state::stock::Stock;
use olc_state::tail::{NodePair, Tail};
use olc_write::making::{copied, make_node};
use spec_olc::payload::HasMeaning;
use spec_olc::types::{Kind, Report};
use std::alloc::Global;

// The form that a node with few children shrinks into.
fn smaller(form: NodeType) -> NodeType
    ensures { result ≡ smaller_form form }
{
    match form {
        NodeType::N4 | NodeType::N16 => NodeType::N4,
        NodeType::N48 => NodeType::N16,
        NodeType::N256 => NodeType::N48,
    }
}

// Lets a node grow once, unless it has this form; returns whether it could.
fn step<P: Drop>(node: &mut TreeNode<P>, form: NodeType, alloc: Global) -> bool
    ensures { IsTrue result → node.new ≡ record node.old { form = stepped node.old.form form } }
{
    if node.base().get_type() == form {
        return true;
    }
    node.grow(alloc).is_ok()
}

// A copy of the node in the next smaller form, with a share of each payload.
fn smaller_copy<P: HasMeaning>(node: &TreeNode<P>, alloc: Global) -> Option<TreeNode<P>>
    requires kinds { AreOfKind node.now }
    requires few { length node.now.children ≤ few_in node.now.form }
    ensures { IfSome result (λ n.
        meant_node P.meaning n ≡ smaller_of (meant_node P.meaning node.now)) }
{
    let form = smaller(node.base().get_type());
    let mut copy = copied(node, alloc)?;
    if step(&mut copy, form, alloc) && step(&mut copy, form, alloc) {
        Some(copy)
    } else {
        None
    }
}

// What a Make reports.
fn made(slot: Option<usize>) -> Report
    ensures { result ≡ report_of Kind.Make slot 0 true }
{
    Report {
        kind: Kind::Make,
        slot,
        word: 0,
        ok: true,
    }
}

/// Makes the smaller copy, with both held. If that is refused, both are unlocked, and the call ends.
pub(crate) fn make_smaller<P: HasMeaning, A: Allocator>(
    stock: &mut Stock<P, A>,
    pin: u64,
    task: &mut Task<P>,
    cleanup: Cleanup,
    pair: NodePair,
) -> Stepped<P>
    requires kept { IsStoreSound P.meaning A.charge stock.old }
    requires facts { KnowsTidy P.meaning A.charge P.always_shared P.same_meaning
        stock.old pin task.old cleanup (Tidy.MakeSmaller pair) }
    ensures moves { (env : Env P) → TidyMoves P.meaning A.charge P.always_shared
        P.same_meaning stock.old stock.new pin task.old cleanup (Tidy.MakeSmaller pair) env
        (record { stage = result.stage; task = task.new }) result.report result.outcome }
{
    let node = &node_at(&stock.store, pair.here.slot).node;
    let built = smaller_copy(node, stock.alloc);
    match make_node(stock, built, None) {
        Some(copy) => going(
            Stage::Tidy(cleanup, Tidy::PutSmaller(pair, copy)),
            made(Some(copy)),
        ),
        None => going(Stage::Tail(Tail::UnlockBelow(pair)), made(None)),
    }
}
