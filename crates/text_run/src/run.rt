//! The engine of `congee run`: command lines in, answer lines out.
//!
//! Tested in `test_serve` and `tools/dev/try-commands`.

ghost use Rattle.std.specs.Prelude.{◌≡◌, ◌≢◌, ℕ, ◌<◌, List, Option, Err, OnOk, true};
ghost use Rattle.std.specs.Result.{result_map_both};
ghost use Rattle.text_run.specs.Run.{EndsRun};
ghost use Rattle.text_run.specs.inner.Session.{HasServedInput, TurnsTo};
ghost use Rattle.text_run.specs.declared.run.RunError.TheVariants.{Read as ReadFailed, Write as WriteFailed};

use crate::session::Session;
use face_typed::typed_congee::Congee;
use node_table::allocator::Allocator;
use std::alloc::Global;
use std::io::{Read, Write};
use text_lines::watched::Watched;

/// Why a run broke off.
#[derive(Clone, Copy, Debug, PartialEq, Eq)]
pub enum RunError {
    /// A read failed.
    Read,
    /// A write failed.
    Write,
    /// There was no memory for the map.
    Oom,
}

/// How many bytes are read at once.
const CHUNK: usize = 8192;

/// Serves the command lines of the input, from the empty map on, and returns the map at its end. All
/// answers so far are written before each read. A line of more than 256 bytes is read to its end
/// without being held, and is answered `bad line`.
///
/// `allocator` gives the memory of the map's nodes: a `Budget` is a limit for it, in bytes.
///
/// Memory is taken once before the first read; a refusal there returns `RunError::Oom`. From then
/// on a line that the map, or its budget, has no memory for is answered `oom`, and the run goes on.
pub fn run<R: Read, W: Write, A: Allocator>(
    alloc: Global,
    allocator: A,
    input: &mut Watched<R>,
    output: &mut Watched<W>,
) -> Result<Congee<u64, u64, A>, RunError>
    requires input { input.old.failed ≢ true }
    requires output { output.old.failed ≢ true }
    ensures { EndsRun R.remaining W.contents input.old input.new output.old output.new
        (result_map_both (λ map. map.pairs) (λ error. error) result) }
{
    let Ok(mut session) = Session::new(alloc, allocator) else {
        return Err(RunError::Oom);
    };
    loop {
        match turn(&mut session, input, output) {
            Ok(true) => {}
            Ok(false) => break,
            Err(error) => return Err(error),
        }
    }
    let Ok(()) = session.finish(output) else {
        return Err(RunError::Write);
    };
    Ok(session.into_map())
}

// Writes the answers so far, reads once, and serves what was read. Returns whether the input goes on.
fn turn<R: Read, W: Write, A: Allocator>(
    session: &mut Session<A>,
    input: &mut Watched<R>,
    output: &mut Watched<W>,
) -> Result<bool, RunError>
    ensures turns { (old_in old_out : Option (List ℕ))
        → HasServedInput R.remaining W.contents session.old input.old output.old old_in old_out
        → TurnsTo R.remaining W.contents session.new input.new output.new old_in old_out result }
    ensures fewer { OnOk result (input.new.calls_left < input.old.calls_left) }
    ensures input { OnOk result (input.new.failed ≡ input.old.failed) }
    ensures output { OnOk result (output.new.failed ≡ output.old.failed) }
    ensures read_failed { result ≡ Err ReadFailed → (input.new.failed ≡ true) }
    ensures write_failed { result ≡ Err WriteFailed → (output.new.failed ≡ true) }
{
    let Ok(()) = session.send_to(output) else {
        return Err(RunError::Write);
    };
    let mut chunk = [0; CHUNK];
    let Ok(count) = input.read(&mut chunk) else {
        return Err(RunError::Read);
    };
    let Ok(()) = session.take_all(&chunk[..count], output) else {
        return Err(RunError::Write);
    };
    Ok(count > 0)
}
