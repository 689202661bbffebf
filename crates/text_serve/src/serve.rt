//! The program, but for its streams and its words.
//!
//! Tested in `test_serve`.

ghost use Rattle.std.specs.Prelude.{◌≡◌, ◌≢◌, ℕ, ◌↔◌, [], ◌∷◌, codes, Option, Result, IfSome, IfNone, OnOk, OnErr, map, string_bytes, Bool, true};
ghost use Rattle.spec_map.specs.Map.{Pairs};
ghost use Rattle.text_trace.specs.declared.detail.Detail.{Detail as HowMuch};
ghost use Rattle.text_schedule.specs.Schedule.{EndsSchedule};
ghost use Rattle.text_schedule.specs.declared.schedule.ScheduleError.{ScheduleError as HowScheduled};
ghost use Rattle.text_run.specs.Run.{EndsRun};
ghost use Rattle.text_run.specs.declared.run.RunError.{RunError as HowRun};
ghost use Rattle.text_lines.specs.Watched.{SendsTo, SendsPart};
ghost use Rattle.text_serve.specs.Serve.{AsksRun, AsksHelp, AsksSchedule, AsksNothing, help_text, Helps, run_status, schedule_status};
ghost use Rattle.text_serve.specs.inner.Asked.{AsksMode};

use face_typed::typed_congee::Congee;
use node_table::allocator::Budget;
use spec_map::error::OOMError;
use std::alloc::Global;
use std::io::{Read, Write};
use text_lines::number::number;
use text_lines::pending::Pending;
use text_lines::watched::{Failed, Watched};
use text_run::run::{RunError, run};
use text_schedule::schedule::{ScheduleError, schedule};
use text_trace::detail::Detail;

/// What each line of a run does.
const HELP: &[u8] = b"\
get K            the value at K, or none\n\
insert K V       sets the value at K: ok and the value before, or oom\n\
remove K         takes K out: the value before\n\
cas K OLD NEW    where OLD is the value at K, puts NEW there (none takes K out): ok and NEW, or err and the value\n\
add K D          adds D to the value at K (past 64 bits takes K out): the value before, and the sum\n\
put K D          adds D to the value at K, up to 18446744073709551615, or sets D: ok and the value before, or oom\n\
range A B N      the first N pairs with keys from A on and below B, 4096 at most: how many, and each as K=V\n\
keys             all keys: how many, and each\n\
empty            whether there is no key: true or false\n\
count            how many keys there are\n\
first            the pair of the least key, as K=V, or none\n\
last             the pair of the greatest key\n\
floor K          the pair of the greatest key that is at most K\n\
ceiling K        the pair of the least key that is at least K\n";

/// The least limit, in bytes: what the root of an empty map is charged.
const LEAST: u64 = 2104;

/// What the words after the program's name ask for.
#[derive(Clone, Copy)]
enum Mode {
    /// A run, with a limit in bytes for the nodes of the map or without one, and whether statistics are wanted at its
    /// end.
    Run(Option<u64>, bool),
    /// The lines of a run.
    Help,
    /// A schedule, and how much its text shows.
    Schedule(Detail),
}

/// Does what the words after the program's name ask for, and returns the exit status. The words are
/// checked before anything is read. What went wrong is written to `errors` in one line, or the statistics of a run's map
/// where they are wanted; whether that works changes nothing.
pub fn serve<R: Read, W: Write, E: Write>(
    alloc: Global,
    words: &[String],
    input: &mut Watched<R>,
    output: &mut Watched<W>,
    errors: &mut E,
) -> u8
    requires input { input.old.failed ≢ true }
    requires output { output.old.failed ≢ true }

    // The words ask for a run, which ended in one of the ways that a run has.
    ensures run { (limit : Option ℕ) (stats : Bool) → AsksRun (map string_bytes words.now) limit stats
        → (ended : Result (Pairs ℕ) HowRun) × (result ≡ run_status ended)
        × EndsRun R.remaining W.contents input.old input.new output.old output.new ended }

    // The words ask for the lines of a run, which were written.
    ensures help { AsksHelp (map string_bytes words.now)
        → Helps W.contents output.old output.new result × (input.new ≡ input.old) }

    // The words ask for a schedule, which ended in one of the ways that a schedule has.
    ensures schedule { (detail : HowMuch) → AsksSchedule (map string_bytes words.now) detail
        → (ended : Result (Unit {0}) HowScheduled) × (result ≡ schedule_status ended)
        × EndsSchedule detail R.remaining W.contents input.old input.new output.old output.new ended }

    // The words are others.
    ensures usage { (result ≡ 2) ↔ AsksNothing (map string_bytes words.now) }
    ensures untouched { result ≡ 2 → (input.new ≡ input.old) × (output.new ≡ output.old) }
{
    match asked_by(words) {
        Some(Mode::Run(limit, stats)) => {
            // So that the program has one copy of the map's code, each map has a limit.
            let limit = limit.unwrap_or(u64::MAX);
            serve_run(alloc, limit, stats, input, output, errors)
        }
        Some(Mode::Help) => help(output, errors),
        Some(Mode::Schedule(detail)) => {
            end_schedule(errors, schedule(alloc, detail, input, output))
        }
        None => tell(
            errors,
            2,
            b"usage: congee run [--stats] [LIMIT] | congee schedule | congee trace [--content]\n",
        ),
    }
}

// Writes what each line of a run does, and returns the status.
fn help<W: Write, E: Write>(output: &mut Watched<W>, errors: &mut E) -> u8
    ensures { Helps W.contents output.old output.new result }
{
    match write_help(output) {
        Ok(()) => 0,
        Err(_) => report_broken(errors),
    }
}

// Writes it. At an `Err` a first part of it was written.
fn write_help<W: Write>(output: &mut Watched<W>) -> Result<(), Failed>
    ensures ok { OnOk result (SendsTo W.contents output.old output.new help_text []) }
    ensures err { OnErr result (SendsPart W.contents output.old output.new help_text) }
    ensures kept { OnOk result (output.new.failed ≡ output.old.failed) }
    ensures failed { OnErr result (output.new.failed ≡ true) }
{
    output.send(HELP)?;
    output.flush()
}

// A run whose map has this limit in bytes, which may be too small for any map. Writes why the run failed, if it did, or the
// statistics of its map, where they are wanted, and returns the status.
fn serve_run<R: Read, W: Write, E: Write>(
    alloc: Global,
    limit: u64,
    stats: bool,
    input: &mut Watched<R>,
    output: &mut Watched<W>,
    errors: &mut E,
) -> u8
    requires input { input.old.failed ≢ true }
    requires output { output.old.failed ≢ true }
    ensures { (ended : Result (Pairs ℕ) HowRun) × (result ≡ run_status ended)
        × EndsRun R.remaining W.contents input.old input.new output.old output.new ended }
{
    match run(alloc, Budget::new(limit), input, output) {
        Ok(map) => {
            if stats {
                write_stats(alloc, errors, &map);
            }
            0
        }
        Err(RunError::Read) => report_broken(errors),
        Err(RunError::Write) => report_broken(errors),
        Err(RunError::Oom) => {
            if limit < LEAST {
                report_small_limit(errors)
            } else {
                report_no_memory(errors)
            }
        }
    }
}

// Writes why a schedule failed, if it did, and returns the status.
fn end_schedule<E: Write>(errors: &mut E, ended: Result<(), ScheduleError>) -> u8
    ensures { result ≡ schedule_status ended }
{
    match ended {
        Ok(()) => 0,
        Err(ScheduleError::Read) => report_broken(errors),
        Err(ScheduleError::Write) => report_broken(errors),
        Err(ScheduleError::Oom) => report_no_memory(errors),
        Err(ScheduleError::Line(number)) => report_bad_line(errors, number),
        Err(ScheduleError::Events) => tell(errors, 4, b"congee: too many events\n"),
    }
}

// Writes the statistics of a map, and what its nodes are charged; or that there is no memory for them.
fn write_stats<E: Write>(alloc: Global, errors: &mut E, map: &Congee<u64, u64, Budget>) {
    match stats_text(alloc, map) {
        Ok(text) => {
            let _ = errors.write_all(text.as_bytes());
        }
        Err(_) => {
            report_no_memory(errors);
        }
    }
}

fn stats_text(alloc: Global, map: &Congee<u64, u64, Budget>) -> Result<String, OOMError> {
    let stats = map.stats()?;
    let charged = map.charged();
    Ok(format!(in alloc; "{stats}Charged: {charged} bytes\n")?)
}

fn report_broken<E: Write>(errors: &mut E) -> u8
    ensures { result ≡ 1 }
{
    tell(errors, 1, b"congee: input or output failed\n")
}

fn report_small_limit<E: Write>(errors: &mut E) -> u8
    ensures { result ≡ 3 }
{
    tell(
        errors,
        3,
        b"congee: LIMIT is at least 2104, the bytes of an empty map\n",
    )
}

/// Writes to `errors` that memory was missing, and returns the exit status for it.
pub fn report_no_memory<E: Write>(errors: &mut E) -> u8
    ensures { result ≡ 3 }
{
    tell(errors, 3, b"congee: Allocator is out of memory!\n")
}

fn report_bad_line<E: Write>(errors: &mut E, number: u64) -> u8
    ensures { result ≡ 4 }
{
    let mut text = Pending::new();
    text.add(b"congee: bad line ");
    text.add_number(number);
    text.add(b"\n");
    tell(errors, 4, text.as_slice())
}

// Writes the text, if that works, and returns the status.
fn tell<E: Write>(errors: &mut E, status: u8, text: &[u8]) -> u8
    ensures { result ≡ status }
{
    let _ = errors.write_all(text);
    status
}

// What the words ask for. `None` where they ask for nothing that there is.
fn asked_by(words: &[String]) -> Option<Mode>
    ensures some { IfSome result (AsksMode (map string_bytes words.now)) }
    ensures none { IfNone result (AsksNothing (map string_bytes words.now)) }
{
    let (name, others) = words.split_first()?;
    if name.as_str() == "run" {
        return asked_after_run(others);
    }
    if name.as_str() == "trace" {
        return asked_after_trace(others);
    }
    if name.as_str() == "schedule" && others.is_empty() {
        return Some(Mode::Schedule(Detail::Outcomes));
    }
    None
}

// What the words after `run` ask for.
fn asked_after_run(words: &[String]) -> Option<Mode>
    ensures some { IfSome result (AsksMode (codes "run" ∷ map string_bytes words.now)) }
    ensures none { IfNone result (AsksNothing (codes "run" ∷ map string_bytes words.now)) }
{
    match words {
        [] => Some(Mode::Run(None, false)),
        [word] => asked_by_one(word),
        [word, limit] if word.as_str() == "--stats" => {
            Some(Mode::Run(Some(number(limit.as_bytes())?), true))
        }
        _ => None,
    }
}

// What one word after `run` asks for.
fn asked_by_one(word: &String) -> Option<Mode>
    ensures some { IfSome result (AsksMode (codes "run" ∷ string_bytes word.now ∷ [])) }
    ensures none { IfNone result (AsksNothing (codes "run" ∷ string_bytes word.now ∷ [])) }
{
    if word.as_str() == "--help" {
        return Some(Mode::Help);
    }
    if word.as_str() == "--stats" {
        return Some(Mode::Run(None, true));
    }
    let limit = number(word.as_bytes())?;
    Some(Mode::Run(Some(limit), false))
}

// What the words after `trace` ask for.
fn asked_after_trace(words: &[String]) -> Option<Mode>
    ensures some { IfSome result (AsksMode (codes "trace" ∷ map string_bytes words.now)) }
    ensures none { IfNone result (AsksNothing (codes "trace" ∷ map string_bytes words.now)) }
{
    match words {
        [] => Some(Mode::Schedule(Detail::Events)),
        [word] if word.as_str() == "--content" => Some(Mode::Schedule(Detail::Contents)),
        _ => None,
    }
}
