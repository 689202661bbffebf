//! The next event of a call, by its stage.
//!
//! Tested in `tools/dev/try-schedules`.

ghost use Rattle.std.specs.Prelude.{◌≢◌, ◌↔◌, IsTrue};
ghost use Rattle.olc_state.specs.inner.Tables.{IsPlaced};
ghost use Rattle.olc_state.specs.inner.Meant.{meant_table};
ghost use Rattle.olc_state.specs.inner.Scans.{IsAtEnd};
ghost use Rattle.olc_descend.specs.inner.Reads.{KnowsMeant, ReadsOnly};

use crate::answering::{answer, confirm};
use crate::checking::{check, check_above};
use olc_descend::looking::read;
use olc_descend::taking::{take_below, take_root};
use olc_scan::stepping::step;
use olc_seek::seeking::seek;
use olc_state::cleanup::{Cleanup, Seek, Tidy};
use olc_state::scan::Scan;
use olc_state::stage::{Stage, Task};
use olc_state::stepped::Stepped;
use olc_state::store::Store;
use olc_state::tail::Tail;
use spec_olc::payload::HasMeaning;
use spec_olc::types::Env;

/// Whether only a call's last event is left, which ends it.
pub fn is_at_end(stage: &Stage) -> bool
    ensures { IsTrue result ↔ IsAtEnd stage.now }
{
    match stage {
        Stage::Finish => true,
        Stage::Scan(_, scan) => match scan {
            Scan::Finish => true,
            _ => false,
        },
        _ => false,
    }
}

/// Makes the next event of a call that doesn't write and goes on after it. An event uses of `env` what its kind takes.
pub fn advance<P: HasMeaning>(
    store: &Store<P>,
    pin: u64,
    task: &mut Task<P>,
    stage: Stage,
    env: Env<P>,
) -> Stepped<P>
    requires placed { IsPlaced (meant_table P.meaning store.now) store.now.root }
    requires facts { KnowsMeant P.always_shared P.same_meaning P.meaning store.now pin
        (record { stage = stage; task = task.old }) }
    requires reads { (tail : Tail) → stage ≢ Stage.Tail tail }
    requires tidies { (c : Cleanup) (x : Tidy) → stage ≢ Stage.Tidy c x }
    requires goes_on { IsAtEnd stage → ⊥ }
    ensures { ReadsOnly P.always_shared P.same_meaning P.meaning store.now pin
        (record { stage = stage; task = task.old }) env
        (record { stage = result.stage; task = task.new }) result.report result.outcome }
{
    match stage {
        Stage::TakeRoot => take_root(store, pin, task),
        Stage::Read(path) => read(store, pin, task, path, env.torn),
        Stage::Check(path) => check(store, pin, task, path),
        Stage::TakeBelow(path, slot) => take_below(store, pin, task, path, slot),
        Stage::CheckAbove(path, below, fits) => check_above(store, pin, task, path, below, fits),
        Stage::Answer(case) => answer(store, pin, task, case, env.answer),
        Stage::Confirm(spot) => confirm(store, pin, task, spot),
        Stage::Scan(course, scan) => step(store, pin, task, course, scan, env.torn),
        Stage::Seek(cleanup, next) => seek(store, pin, task, cleanup, next, env.torn),
        Stage::Tail(_) => unreachable!(),
        Stage::Tidy(..) => unreachable!(),
        Stage::Finish => unreachable!(),
    }
}
