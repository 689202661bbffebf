//! The engine of `congee schedule` and `congee trace`: the lines of a schedule in, the text of its replay out.
//!
//! Tested in `test_serve` and `tools/dev/try-schedules`.

ghost use Rattle.std.specs.Prelude.{◌≡◌, ◌≢◌, true};
ghost use Rattle.text_schedule.specs.Schedule.{EndsSchedule};

use crate::reading::read_schedule;
use olc_replay::replay::replay;
use std::alloc::Global;
use std::io::{Read, Write};
use text_lines::watched::Watched;
use text_trace::detail::Detail;
use text_trace::printing::{TraceError, write_trace};

/// Why a schedule wasn't replayed, or its text not written.
#[derive(Clone, Copy, Debug, PartialEq, Eq)]
pub enum ScheduleError {
    /// A read failed.
    Read,
    /// A write failed. A beginning of the text may have gone out.
    Write,
    /// There was no memory for the events, for the machine's root, for a call that starts, for the trace, or for the
    /// contents that are to be shown.
    Oom,
    /// The line with this number, from 1 on, is no entry.
    Line(u64),
    /// The lines have more than 100000 events.
    Events,
}

/// Reads the lines of a schedule, replays their events, and writes the text of the replay in this detail.
///
/// All lines are read and parsed before anything happens; the first one with a fault decides the error. Nothing is
/// written before the replay has ended.
pub fn schedule<R: Read, W: Write>(
    alloc: Global,
    detail: Detail,
    input: &mut Watched<R>,
    output: &mut Watched<W>,
) -> Result<(), ScheduleError>
    requires input { input.old.failed ≢ true }
    requires output { output.old.failed ≢ true }
    ensures { EndsSchedule detail R.remaining W.contents
        input.old input.new output.old output.new result }
{
    let events = read_schedule(alloc, input)?;
    let Ok(trace) = replay(alloc, &events) else {
        return Err(ScheduleError::Oom);
    };
    match write_trace(alloc, output, detail, &events, &trace) {
        Ok(()) => Ok(()),
        Err(TraceError::Oom) => Err(ScheduleError::Oom),
        Err(TraceError::Write) => Err(ScheduleError::Write),
    }
}
