//! The next event of a call that cleans up, on its way down.
//!
//! Tested in `tools/dev/try-schedules`.

ghost use Rattle.std.specs.Prelude.{◌≡◌};
ghost use Rattle.spec_olc.specs.declared.types.Env.{Env};
ghost use Rattle.olc_state.specs.inner.Meant.{meant_table};
ghost use Rattle.olc_state.specs.inner.Tables.{IsPlaced};
ghost use Rattle.olc_descend.specs.inner.Reads.{KnowsMeant, ReadsOnly};

use crate::checking::{check, check_above};
use crate::reading::read;
use crate::taking::{take_below, take_root};
use olc_state::cleanup::{Cleanup, Seek};
use olc_state::stage::{Stage, Task};
use olc_state::stepped::Stepped;
use olc_state::store::Store;
use spec_olc::payload::HasMeaning;
use spec_olc::types::Seen;

/// The next event of a cleanup on its way down, which isn't at its end. A Read reports `torn` if its node's word isn't
/// the remembered one.
pub fn seek<P: HasMeaning>(
    store: &Store<P>,
    pin: u64,
    task: &mut Task<P>,
    cleanup: Cleanup,
    seek: Seek,
    torn: Seen<P>,
) -> Stepped<P>
    requires placed { IsPlaced (meant_table P.meaning store.now) store.now.root }
    requires facts { KnowsMeant P.always_shared P.same_meaning P.meaning store.now pin
        (record { stage = Stage.Seek cleanup seek; task = task.old }) }
    ensures { (env : Env P) → env.torn ≡ torn
        → ReadsOnly P.always_shared P.same_meaning P.meaning store.now pin
        (record { stage = Stage.Seek cleanup seek; task = task.old }) env
        (record { stage = result.stage; task = task.new }) result.report result.outcome }
{
    match seek {
        Seek::TakeRoot => take_root(store, pin, task, cleanup),
        Seek::Read(path) => read(store, pin, task, cleanup, path, torn),
        Seek::Check(path) => check(store, pin, task, cleanup, path),
        Seek::TakeBelow(path, slot) => take_below(store, pin, task, cleanup, path, slot),
        Seek::CheckAbove(path, below, fits) => {
            check_above(store, pin, task, cleanup, path, below, fits)
        }
    }
}
