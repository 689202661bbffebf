//! The program `congee`: serves commands on an ordered map, or replays a schedule of the protocol's events and writes what
//! comes of them, or each of them.
//!
//! Tested in `tools/dev/try-program`.
#![tactic(auto)]

use std::cell::Cell;
use std::process::ExitCode;
use text_lines::watched::Watched;
use text_serve::pipes::{Hushed, Piped};
use text_serve::progress::{Metered, meter_of};
use text_serve::serve::{report_no_memory, serve};
use text_serve::typed::{Typed, hints_of};
use text_serve::words::words_of;

fn main(rt: HostRuntime) -> ExitCode {
    let Ok(words) = words_of(&rt) else {
        return ExitCode::from(report_no_memory(&mut rt.stderr()));
    };
    let meter = meter_of(&rt.stdin(), &rt.stdout(), rt.stderr(), &rt);
    let hints = hints_of(&rt.stdin(), &rt.stdout(), rt.stderr(), &words);
    let mut input = Watched::new(Typed::new(Metered::new(rt.stdin(), meter), hints));
    let gone = Cell::new(false);
    let mut output = Watched::new(Piped::new(rt.stdout(), &gone));
    let status = serve(
        rt.alloc(),
        &words,
        &mut input,
        &mut output,
        &mut Hushed::new(rt.stderr(), &gone),
    );
    ExitCode::from(status)
}
