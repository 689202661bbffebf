//! The next event of a range, by its stage.
//!
//! Tested in `tools/dev/try-schedules` and `test_olc/range_owners`.

ghost use Rattle.std.specs.Prelude.{◌≡◌, ◌≢◌};
ghost use Rattle.spec_olc.specs.declared.types.Env.{Env};
ghost use Rattle.olc_descend.specs.inner.Reads.{KnowsMeant, ReadsOnly};
ghost use Rattle.olc_state.specs.inner.Meant.{meant_table};
ghost use Rattle.olc_state.specs.inner.Tables.{IsPlaced};

use crate::course::Scanned;
use crate::scanning::{check, check_above, read, take_below, take_root};
use olc_state::scan::{RangeProgress, Scan};
use olc_state::stage::{Stage, Task};
use olc_state::stepped::Stepped;
use olc_state::store::Store;
use spec_olc::payload::HasMeaning;
use spec_olc::types::Seen;

// An event of a range, as one of a call.
fn stepped<P: Drop>(scanned: Scanned<P>) -> Stepped<P>
    ensures { result ≡ record {
      stage = Stage.Scan scanned.course scanned.scan;
      report = scanned.report;
      outcome = scanned.outcome;
    } }
{
    let Scanned {
        course,
        scan,
        report,
        outcome,
    } = scanned;
    Stepped {
        stage: Stage::Scan(course, scan),
        report,
        outcome,
    }
}

/// The next event of a range that hasn't ended. A Read reports `torn` if its node's word isn't the remembered one.
pub fn step<P: HasMeaning>(
    store: &Store<P>,
    pin: u64,
    task: &mut Task<P>,
    course: RangeProgress,
    scan: Scan,
    torn: Seen<P>,
) -> Stepped<P>
    requires placed { IsPlaced (meant_table P.meaning store.now) store.now.root }
    requires facts { KnowsMeant P.always_shared P.same_meaning P.meaning store.now pin
        (record { stage = Stage.Scan course scan; task = task.old }) }
    requires goes { scan ≢ Scan.Finish }
    ensures { (env : Env P) → env.torn ≡ torn
        → ReadsOnly P.always_shared P.same_meaning P.meaning store.now pin
        (record { stage = Stage.Scan course scan; task = task.old }) env
        (record { stage = result.stage; task = task.new }) result.report result.outcome }
{
    match scan {
        Scan::TakeRoot => stepped(take_root(store, pin, task, course)),
        Scan::Read(here) => stepped(read(store, pin, task, course, here, torn)),
        Scan::Check(here) => stepped(check(store, pin, task, course, here)),
        Scan::TakeBelow(here, slot) => stepped(take_below(store, pin, task, course, here, slot)),
        Scan::CheckAbove(here, below, from) => {
            stepped(check_above(store, pin, task, course, here, below, from))
        }
        Scan::Finish => unreachable!(),
    }
}
