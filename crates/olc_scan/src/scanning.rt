//! Take, Read and Check of a range.
//!
//! Tested in `tools/dev/try-schedules` and `test_olc/range_owners`.

ghost use Rattle.std.specs.Prelude.{◌≡◌, ◌↔◌, ℕ, ◌+◌, ◌<◌, ◌≤◌, ◌^◌, max, List, IsTrue, [], ◌∷◌, ◌++◌, Some, None, IsSome, IfSome, IfNone, length};
ghost use Rattle.spec_map.specs.Map.{between};
ghost use Rattle.spec_node.specs.Key.{high, low, next_byte};
ghost use Rattle.spec_node.specs.TableNode.{Child, looked_at, seen};
ghost use Rattle.spec_olc.specs.Calls.{bytes_of};
ghost use Rattle.spec_olc.specs.declared.types.Env.{Env};
ghost use Rattle.olc_scan.specs.inner.Ranges.{IsLooked, IsPaired, IsPast, KnowsScan, ScansOn, after_scan, first_in, looked};
ghost use Rattle.olc_state.specs.inner.Meant.{meant_table};
ghost use Rattle.olc_state.specs.inner.Tables.{IsPlaced};
ghost use Rattle.olc_state.specs.inner.Tasks.{closed, restarted};

use crate::course::{Scanned, byte_below, is_over, last_key, leaf_key, may_give};
use node_table::tree_node::TreeNode;
use olc_descend::looking::{noted, shared};
use olc_state::scan::{RangeProgress, Scan};
use olc_state::stage::{Spot, Stage, Task};
use olc_state::stepped::{Stepped, back as restart, has_word, node_at, refused as refuse, report};
use olc_state::store::Store;
use spec_node::child::ChildRef;
use spec_olc::payload::HasMeaning;
use spec_olc::types::{Kind, Outcome, Report, Seen};

// An event after which a range goes on.
fn on<P>(course: RangeProgress, scan: Scan, report: Report) -> Scanned<P>
    ensures { result ≡ record {
      course = course;
      scan = scan;
      report = report;
      outcome = Outcome.Going;
    } }
{
    Scanned {
        course,
        scan,
        report,
        outcome: Outcome::Going,
    }
}

// An event after which a range restarts at the root, and keeps its cursor and its count.
fn back<P: Drop>(task: &mut Task<P>, course: RangeProgress, report: Report) -> Scanned<P>
    ensures task { task.new ≡ restarted task.old }
    ensures event { result ≡ record {
      course = record course { reach = course.cursor };
      scan = Scan.TakeRoot;
      report = report;
      outcome = Outcome.Going;
    } }
{
    let course = RangeProgress {
        cursor: course.cursor,
        reach: course.cursor,
        given: course.given,
    };
    let Stepped {
        stage: _,
        report,
        outcome,
    } = restart(task, report);
    Scanned {
        course,
        scan: Scan::TakeRoot,
        report,
        outcome,
    }
}

/// Take of the root.
pub fn take_root<P: HasMeaning>(
    store: &Store<P>,
    pin: u64,
    task: &mut Task<P>,
    course: RangeProgress,
) -> Scanned<P>
    requires placed { IsPlaced (meant_table P.meaning store.now) store.now.root }
    requires facts { KnowsScan P.always_shared P.same_meaning P.meaning store.now pin task.old course
        Scan.TakeRoot }
    ensures { (env : Env P) → ScansOn P.always_shared P.same_meaning P.meaning store.now pin task.old
        course Scan.TakeRoot env (after_scan task.new result) }
{
    let slot = store.root;
    let word = node_at(store, slot).word;
    if word.is_free() {
        let here = Spot {
            slot,
            word: word.number(),
        };
        let report = report(Kind::Take, slot, word.number(), true);
        on(course, Scan::Read(here), report)
    } else {
        let report = report(Kind::Take, slot, word.number(), false);
        back(task, course, report)
    }
}

/// The key from which on a range with this cursor looks at a node; `None` if the cursor is past all keys that the
/// node may contain.
fn reach_in<P: Drop>(node: &TreeNode<P>, cursor: u64) -> Option<u64>
    ensures within { IfSome result (λ reach. (reach ≡ max cursor (low node.now.prefix))
        × (cursor < high node.now.prefix)) }
    ensures past { IfNone result (high node.now.prefix ≤ cursor) }
    ensures small { IfSome result (λ reach. reach < 2 ^ 64) }
{
    let base = node.base();
    if last_key(base.prefix(), u8::MAX) < cursor {
        None
    } else {
        Some(cursor.max(base.first_key()))
    }
}

/// Take of the child that was read.
pub fn take_below<P: HasMeaning>(
    store: &Store<P>,
    pin: u64,
    task: &mut Task<P>,
    course: RangeProgress,
    here: Spot,
    slot: usize,
) -> Scanned<P>
    requires placed { IsPlaced (meant_table P.meaning store.now) store.now.root }
    requires facts { KnowsScan P.always_shared P.same_meaning P.meaning store.now pin task.old course
        (Scan.TakeBelow here slot) }
    ensures { (env : Env P) → ScansOn P.always_shared P.same_meaning P.meaning store.now pin task.old
        course (Scan.TakeBelow here slot) env (after_scan task.new result) }
{
    let node = node_at(store, slot);
    let word = node.word;
    if word.is_free() {
        let below = Spot {
            slot,
            word: word.number(),
        };
        let from = reach_in(&node.node, course.cursor);
        let report = report(Kind::Take, slot, word.number(), true);
        on(course, Scan::CheckAbove(here, below, from), report)
    } else {
        let report = report(Kind::Take, slot, word.number(), false);
        back(task, course, report)
    }
}

// The first child of a node that a range which looks from `reach` on may find, and its byte.
fn first_at<'a, P: Drop>(node: &'a TreeNode<P>, reach: u64) -> Option<(u8, ChildRef<'a, P>)>
    ensures none { IfNone result (between node.now.children
        (next_byte node.now.prefix (bytes_of reach)) 256 ≡ []) }
    ensures some { IfSome result (λ found. between node.now.children
        (next_byte node.now.prefix (bytes_of reach)) 256
        ≡ (found.0, looked_at found.1) ∷ between node.now.children (found.0 + 1) 256) }
{
    node.first_from(byte_below(node.base().prefix(), reach) as usize)
}

// The first child that it may find.
fn first_child<'a, P: Drop>(node: &'a TreeNode<P>, reach: u64) -> Option<ChildRef<'a, P>>
    ensures { seen result ≡ first_in (between node.now.children
        (next_byte node.now.prefix (bytes_of reach)) 256) }
{
    match first_at(node, reach) {
        None => None,
        Some((_, child)) => Some(child),
    }
}

/// Read of the current node, which reports `torn` if the node's word isn't the remembered one.
pub fn read<P: HasMeaning>(
    store: &Store<P>,
    pin: u64,
    task: &mut Task<P>,
    course: RangeProgress,
    here: Spot,
    torn: Seen<P>,
) -> Scanned<P>
    requires placed { IsPlaced (meant_table P.meaning store.now) store.now.root }
    requires facts { KnowsScan P.always_shared P.same_meaning P.meaning store.now pin task.old course
        (Scan.Read here) }
    ensures { (env : Env P) → env.torn ≡ torn
        → ScansOn P.always_shared P.same_meaning P.meaning store.now pin task.old course
        (Scan.Read here) env (after_scan task.new result) }
{
    let node = node_at(store, here.slot);
    let report = report(Kind::Read, here.slot, 0, true);
    if has_word(node, here) {
        read_whole(&node.node, task, course, here, torn, report)
    } else {
        sees(task, course, here, torn, None, report)
    }
}

// A Read after which the range goes on to its Check.
fn sees<P: Drop>(
    task: &mut Task<P>,
    course: RangeProgress,
    here: Spot,
    seen: Seen<P>,
    spare: Option<P>,
    report: Report,
) -> Scanned<P>
    ensures task { task.new ≡ looked task.old seen spare }
    ensures event { result ≡ record {
      course = course;
      scan = Scan.Check here;
      report = report;
      outcome = Outcome.Going;
    } }
{
    task.last = Some(seen);
    task.spare = spare;
    task.question = None;
    on(course, Scan::Check(here), report)
}

// A Read of a node whose word is the remembered one; what a torn Read would have reported is dropped.
fn read_whole<P: HasMeaning>(
    node: &TreeNode<P>,
    task: &mut Task<P>,
    course: RangeProgress,
    here: Spot,
    _torn: Seen<P>,
    report: Report,
) -> Scanned<P>
    ensures { IsLooked P.always_shared P.meaning node.now task.old course here report
        (after_scan task.new result) }
{
    match shared(first_child(node, course.reach), false) {
        Ok(shares) => {
            let found = noted(node, shares);
            sees(task, course, here, found.seen, found.spare, report)
        }
        Err(_) => {
            let Stepped {
                stage: _,
                report,
                outcome,
            } = refuse(task, Stage::Finish, report);
            Scanned {
                course,
                scan: Scan::Finish,
                report,
                outcome,
            }
        }
    }
}

// A range that has passed all keys up to this one.
fn past<P: Drop>(task: &mut Task<P>, course: RangeProgress, last: u64, report: Report) -> Scanned<P>
    ensures { IsPast task.old course last report (after_scan task.new result) }
{
    let from = last.saturating_add(1);
    let course = RangeProgress {
        cursor: from,
        reach: from,
        given: course.given,
    };
    if is_over(&task.outline, course) {
        on(course, Scan::Finish, report)
    } else {
        back(task, course, report)
    }
}

// A range that has found a payload with this key, whose last byte is `byte`.
fn paired<P: Drop>(
    task: &mut Task<P>,
    course: RangeProgress,
    here: Spot,
    key: u64,
    byte: u8,
    report: Report,
) -> Scanned<P>
    requires { IsSome task.old.spare }
    ensures { IsPaired task.old course here key byte report (after_scan task.new result) }
{
    if !may_give(&task.outline, course.given, key) {
        let course = RangeProgress {
            cursor: course.cursor,
            reach: key,
            given: course.given,
        };
        return on(course, Scan::Finish, report);
    }
    let Some(value) = task.spare.take() else {
        unreachable!()
    };
    let course = RangeProgress {
        cursor: key + 1,
        reach: key + 1,
        given: course.given + 1,
    };
    let next = if is_over(&task.outline, course) {
        on(course, Scan::Finish, report)
    } else if byte == u8::MAX {
        back(task, course, report)
    } else {
        on(course, Scan::Read(here), report)
    };
    with_pair(next, key, value)
}

// The event returns this pair.
fn with_pair<P: Drop>(scanned: Scanned<P>, key: u64, value: P) -> Scanned<P>
    ensures { result ≡ record scanned { outcome = Outcome.Pair key value } }
{
    let Scanned {
        course,
        scan,
        report,
        outcome: _,
    } = scanned;
    Scanned {
        course,
        scan,
        report,
        outcome: Outcome::Pair(key, value),
    }
}

/// Check of the current node after a Read.
pub fn check<P: HasMeaning>(
    store: &Store<P>,
    pin: u64,
    task: &mut Task<P>,
    course: RangeProgress,
    here: Spot,
) -> Scanned<P>
    requires placed { IsPlaced (meant_table P.meaning store.now) store.now.root }
    requires facts { KnowsScan P.always_shared P.same_meaning P.meaning store.now pin task.old course
        (Scan.Check here) }
    ensures { (env : Env P) → ScansOn P.always_shared P.same_meaning P.meaning store.now pin task.old
        course (Scan.Check here) env (after_scan task.new result) }
{
    let node = node_at(store, here.slot);
    if !has_word(node, here) {
        let report = report(Kind::Check, here.slot, 0, false);
        return back(task, course, report);
    }
    let report = report(Kind::Check, here.slot, 0, true);
    let prefix = node.node.base().prefix();
    match first_at(&node.node, course.reach) {
        None => past(task, course, last_key(prefix, u8::MAX), report),
        Some((byte, ChildRef::Payload(_))) => {
            paired(task, course, here, leaf_key(prefix, byte), byte, report)
        }
        Some((_, ChildRef::Node(slot))) => on(course, Scan::TakeBelow(here, slot), report),
    }
}

/// Check of the parent of the child that was taken.
pub fn check_above<P: HasMeaning>(
    store: &Store<P>,
    pin: u64,
    task: &mut Task<P>,
    course: RangeProgress,
    here: Spot,
    below: Spot,
    from: Option<u64>,
) -> Scanned<P>
    requires placed { IsPlaced (meant_table P.meaning store.now) store.now.root }
    requires facts { KnowsScan P.always_shared P.same_meaning P.meaning store.now pin task.old course
        (Scan.CheckAbove here below from) }
    ensures { (env : Env P) → ScansOn P.always_shared P.same_meaning P.meaning store.now pin task.old
        course (Scan.CheckAbove here below from) env (after_scan task.new result) }
{
    let node = node_at(store, here.slot);
    if !has_word(node, here) {
        let report = report(Kind::Check, here.slot, 0, false);
        return back(task, course, report);
    }
    let report = report(Kind::Check, here.slot, 0, true);
    if let Some(reach) = from {
        let course = RangeProgress {
            cursor: course.cursor,
            reach,
            given: course.given,
        };
        return on(course, Scan::Read(below), report);
    }
    let Some((byte, _)) = first_at(&node.node, course.reach) else {
        unreachable!()
    };
    past(
        task,
        course,
        last_key(node.node.base().prefix(), byte),
        report,
    )
}
