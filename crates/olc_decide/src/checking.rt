//! Check: whether the current node's word is still the remembered one, and what follows for the key.
//!
//! Tested in `tools/dev/try-schedules`.

ghost use Rattle.std.specs.Prelude.{◌≡◌, Some};
ghost use Rattle.spec_olc.specs.declared.types.Env.{Env};
ghost use Rattle.olc_state.specs.inner.Tables.{IsPlaced};
ghost use Rattle.olc_state.specs.inner.Meant.{meant_table};
ghost use Rattle.spec_olc.specs.Calls.{IsPoint};
ghost use Rattle.olc_state.specs.inner.World.{PlacedNode};
ghost use Rattle.olc_descend.specs.inner.Reads.{KnowsMeant, ReadsOnly};

use crate::finding::{Met, absent_above, absent_here, meet};
use crate::presence::present;
use olc_state::stage::{Path, Spot, Stage, Task};
use olc_state::stepped::{Stepped, back, going, has_word, node_at, report};
use olc_state::store::Store;
use spec_olc::payload::HasMeaning;
use spec_olc::types::Kind;

/// Check of the current node after a Read.
pub(crate) fn check<P: HasMeaning>(
    store: &Store<P>,
    pin: u64,
    task: &mut Task<P>,
    path: Path,
) -> Stepped<P>
    requires placed { IsPlaced (meant_table P.meaning store.now) store.now.root }
    requires facts { KnowsMeant P.always_shared P.same_meaning P.meaning store.now pin
        (record { stage = Stage.Check path; task = task.old }) }
    ensures reads { (env : Env P) → ReadsOnly P.always_shared P.same_meaning P.meaning store.now pin
        (record { stage = Stage.Check path; task = task.old }) env
        (record { stage = result.stage; task = task.new }) result.report result.outcome }
{
    let slot = path.here.slot;
    if !has_word(node_at(store, slot), path.here) {
        let report = report(Kind::Check, slot, 0, false);
        return back(task, report);
    }
    checked(store, pin, task, path)
}

// A Check that passes: the call goes down, or finds that its key is present or absent.
fn checked<P: HasMeaning>(store: &Store<P>, pin: u64, task: &mut Task<P>, path: Path) -> Stepped<P>
    requires placed { IsPlaced (meant_table P.meaning store.now) store.now.root }
    requires facts { KnowsMeant P.always_shared P.same_meaning P.meaning store.now pin
        (record { stage = Stage.Check path; task = task.old }) }
    requires at_key { (a : PlacedNode P.Meaning) → meant_table P.meaning store.now path.here.slot ≡ Some a
        → a.word ≡ path.here.word }
    requires point { IsPoint task.old.outline }
    ensures reads { (env : Env P) → ReadsOnly P.always_shared P.same_meaning P.meaning store.now pin
        (record { stage = Stage.Check path; task = task.old }) env
        (record { stage = result.stage; task = task.new }) result.report result.outcome }
{
    match meet(store, pin, task, path) {
        Met::Below(slot) => {
            let report = report(Kind::Check, path.here.slot, 0, true);
            going(Stage::TakeBelow(path, slot), report)
        }
        Met::Absent(case) => absent_here(store, pin, task, path, case),
        Met::Present(pair, only) => present(store, pin, task, pair, only),
    }
}

/// Check of the parent of the child that was taken. If the child is off the key's path, the key is absent.
pub(crate) fn check_above<P: HasMeaning>(
    store: &Store<P>,
    pin: u64,
    task: &mut Task<P>,
    path: Path,
    below: Spot,
    fits: bool,
) -> Stepped<P>
    requires placed { IsPlaced (meant_table P.meaning store.now) store.now.root }
    requires facts { KnowsMeant P.always_shared P.same_meaning P.meaning store.now pin
        (record { stage = Stage.CheckAbove path below fits; task = task.old }) }
    ensures reads { (env : Env P) → ReadsOnly P.always_shared P.same_meaning P.meaning store.now pin
        (record { stage = Stage.CheckAbove path below fits; task = task.old }) env
        (record { stage = result.stage; task = task.new }) result.report result.outcome }
{
    let slot = path.here.slot;
    if !has_word(node_at(store, slot), path.here) {
        let report = report(Kind::Check, slot, 0, false);
        return back(task, report);
    }
    if fits {
        let report = report(Kind::Check, slot, 0, true);
        let above = Some(path.here);
        return going(Stage::Read(Path { above, here: below }), report);
    }
    absent_above(store, pin, task, path, below)
}
