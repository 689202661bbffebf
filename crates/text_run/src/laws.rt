//! What follows from the definitions alone: laws by which a reader can check the definitions.

ghost use Rattle.std.specs.Prelude.{◌≡◌, ◌↔◌, ℕ, ◌<◌, List, Result, length};
ghost use Rattle.std.specs.List.{join_with_byte};
ghost use Rattle.spec_text.specs.declared.command.Command.{Command};
ghost use Rattle.spec_text.specs.Command.{words_of_command, SpellsCommand, IsNoCommand};
ghost use Rattle.spec_map.specs.Map.{Pairs};
ghost use Rattle.text_run.specs.Run.{EndsRun};
ghost use Rattle.text_run.specs.inner.ByRow.{AnswersByRow};
ghost use Rattle.text_run.specs.inner.CommandReading.{CommandIsWithin};
ghost use Rattle.text_run.specs.inner.Parts.{EndsRunByParts};
ghost use Rattle.text_run.specs.inner.RefusedRanges.{AnswersWithoutRefusedRanges};

use crate::run::RunError;
use std::io::{Read, Write};
use text_lines::watched::Watched;

/// A line parses as one command at most.
pub fn one_command()
    ensures { (line : List ℕ) (one other : Command)
        → SpellsCommand line one → SpellsCommand line other → one ≡ other }
{}

/// A line is a command where it is its words, its numbers have 64 bits, and at most 4096 pairs are asked for: a row for
/// each command.
pub fn command_bounds()
    ensures { (line : List ℕ) (command : Command) → SpellsCommand line command
        ↔ ((line ≡ join_with_byte 32 (words_of_command command)) × CommandIsWithin command) }
{}

/// A line of more than 256 bytes is no command.
pub fn long_lines()
    ensures { (line : List ℕ) → 256 < length line → IsNoCommand line }
{}

/// How a run ends, in parts: the whole input, its whole lines, or a part of it; with the answers to a command by a row
/// for each outcome.
pub fn a_run_in_parts<R: Read, W: Write>()
    ensures { (input input' : Watched R) (output output' : Watched W)
        (result : Result (Pairs ℕ) RunError)
        → EndsRun R.remaining W.contents input input' output output' result
        → EndsRunByParts AnswersByRow R.remaining W.contents input input' output output' result }
{}

/// How a run ends, in parts, without the ranges that found no memory for their pairs: their lines are no operations of
/// the run, and its map refuses no range.
pub fn refused_ranges_are_outside<R: Read, W: Write>()
    ensures { (input input' : Watched R) (output output' : Watched W)
        (result : Result (Pairs ℕ) RunError)
        → EndsRun R.remaining W.contents input input' output output' result
        → EndsRunByParts AnswersWithoutRefusedRanges R.remaining W.contents
        input input' output output' result }
{}
