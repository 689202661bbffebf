//! The first event of a call.
//!
//! Tested in `share_maps` and `test_share_guards/changes`.

ghost use Rattle.std.specs.Prelude.{◌≡◌, Some, IfOk, OnErr};
ghost use Rattle.spec_olc.specs.Meaning.{in_some};
ghost use Rattle.spec_olc.specs.declared.types.Asking.TheVariants.{Fresh};
ghost use Rattle.spec_olc.specs.declared.types.Op.TheVariants.{CompareExchange};
ghost use Rattle.share_tree.specs.inner.Current.{CountsRise, IsCurrent};
ghost use Rattle.share_tree.specs.inner.Opened.{outcome_opened, seat_opened};
ghost use Rattle.share_tree.specs.inner.Turned.{ChangesTo, OpensTo, running};

use crate::asking;
use crate::counted::Counted;
use crate::opened::Opened;
use crate::payloads::{again, more};
use node_table::allocator::Allocator;
use spec_map::error::OOMError;
use spec_olc::payload::HasMeaning;
use spec_olc::types::{Op, Reply};

/// Decides a call, or asks its closure. `OOMError` if there is no memory for a node or for a share of a payload: then
/// nothing has changed. A range is no call of this map, and is refused.
pub(crate) fn open<P: HasMeaning, A: Allocator>(
    tree: &mut Counted<P, A>,
    op: &Op<P>,
) -> Result<Opened<P>, OOMError>
    ensures opens { IfOk result (λ o. OpensTo P.meaning op.now o) }
    ensures content { IfOk result (λ o. ChangesTo P.meaning P.same_meaning
        (running P.meaning op.now Fresh) tree.old tree.new (outcome_opened o)) }
    ensures current { IfOk result (λ o. IsCurrent P.meaning tree.new (seat_opened o)) }
    ensures err { OnErr result (tree.new.pairs ≡ tree.old.pairs) }
    ensures onward { CountsRise P.meaning tree.old tree.new }
{
    match op {
        Op::Get(key) => Ok(Opened::Over(Reply::Old(more(tree.look(*key))?))),
        Op::Insert(key, value) => {
            let stored = value.share()?;
            Ok(Opened::Over(Reply::Old(tree.insert(*key, stored)?)))
        }
        Op::Remove(key) => Ok(Opened::Over(Reply::Old(tree.remove(*key)))),
        Op::ComputeIfPresent(key) => asking::ask_present(tree, *key),
        Op::ComputeOrInsert(key, other) => asking::ask_always(tree, *key, other),
        Op::CompareExchange(key, old, new) => exchange(tree, *key, old, new),
        Op::Range(..) => Err(OOMError::new()),
    }
}

// Stores `new`, or removes the pair for `None`, if the stored payload is the same as `old`.
fn exchange<P: HasMeaning, A: Allocator>(
    tree: &mut Counted<P, A>,
    key: u64,
    old: &P,
    new: &Option<P>,
) -> Result<Opened<P>, OOMError>
    ensures opens { IfOk result (λ o. OpensTo P.meaning (CompareExchange key old.now new.now) o) }
    ensures content { IfOk result (λ o. ChangesTo P.meaning P.same_meaning
        (running P.meaning (CompareExchange key old.now new.now) Fresh) tree.old tree.new
        (outcome_opened o)) }
    ensures current { IfOk result (λ o. IsCurrent P.meaning tree.new (seat_opened o)) }
    ensures err { OnErr result (tree.new.pairs ≡ tree.old.pairs) }
    ensures onward { CountsRise P.meaning tree.old tree.new }
{
    let Some(stored) = tree.look(key) else {
        return Ok(Opened::Over(Reply::Exchanged(Err(None))));
    };
    if !stored.same(old) {
        let current = stored.share()?;
        return Ok(Opened::Over(Reply::Exchanged(Err(Some(current)))));
    }
    let returned = again(new)?;
    let wanted = again(new)?;
    tree.set(key, wanted);
    Ok(Opened::Over(Reply::Exchanged(Ok(returned))))
}
