//! Commands, and the lines that parse as commands.
//!
//! Tested in `test_serve` and `tools/dev/try-commands`.

ghost use Rattle.std.specs.Prelude.{◌≡◌, ℕ, List, ◌∷◌, ◌≤◌, IfSome, IfNone, codes, decimal};

use spec_text::command::Command;
use text_lines::words::Words;

/// How many pairs a range may ask for.
pub const MAX_PAIRS: u64 = 4096;

ghost use Rattle.text_lines.specs.inner.Words.{words_left};
ghost use Rattle.text_run.specs.inner.CommandReading.{ReadsCommand};
ghost use Rattle.spec_text.specs.Command.{SpellsCommand, IsNoCommand};

/// The command that a line parses as. The line feed behind it is no part of a line.
pub fn command_of(line: &[u8]) -> Option<Command>
    ensures parsed { IfSome result (SpellsCommand line.now) }
    ensures bad { IfNone result (IsNoCommand line.now) }
{
    let mut words = Words::new(line);
    let name = words.next_word()?;
    named(name, words)
}

// The command with this first word and these behind it.
fn named(name: &[u8], words: Words) -> Option<Command>
    ensures { ReadsCommand name.now words.entry result }
{
    if name == b"get".as_slice() {
        return get_of(words);
    }
    if name == b"insert".as_slice() {
        return insert_of(words);
    }
    if name == b"remove".as_slice() {
        return remove_of(words);
    }
    if name == b"cas".as_slice() {
        return exchange_of(words);
    }
    if name == b"add".as_slice() {
        return add_of(words);
    }
    if name == b"put".as_slice() {
        return put_of(words);
    }
    if name == b"range".as_slice() {
        return range_of(words);
    }
    if name == b"keys".as_slice() {
        return keys_of(words);
    }
    if name == b"empty".as_slice() {
        return empty_of(words);
    }
    if name == b"first".as_slice() {
        return first_of(words);
    }
    if name == b"last".as_slice() {
        return last_of(words);
    }
    if name == b"floor".as_slice() {
        return floor_of(words);
    }
    if name == b"ceiling".as_slice() {
        return ceiling_of(words);
    }
    if name == b"count".as_slice() {
        return count_of(words);
    }
    None
}

fn get_of(mut words: Words) -> Option<Command>
    ensures { ReadsCommand (codes "get") words.entry result }
{
    let key = words.next_number()?;
    words.end()?;
    Some(Command::Get(key))
}

fn insert_of(mut words: Words) -> Option<Command>
    ensures { ReadsCommand (codes "insert") words.entry result }
{
    let key = words.next_number()?;
    let value = words.next_number()?;
    words.end()?;
    Some(Command::Insert(key, value))
}

fn remove_of(mut words: Words) -> Option<Command>
    ensures { ReadsCommand (codes "remove") words.entry result }
{
    let key = words.next_number()?;
    words.end()?;
    Some(Command::Remove(key))
}

fn exchange_of(mut words: Words) -> Option<Command>
    ensures { ReadsCommand (codes "cas") words.entry result }
{
    let key = words.next_number()?;
    let old = words.next_number()?;
    let new = words.next_value()?;
    words.end()?;
    Some(Command::Exchange(key, old, new))
}

fn add_of(mut words: Words) -> Option<Command>
    ensures { ReadsCommand (codes "add") words.entry result }
{
    let key = words.next_number()?;
    let more = words.next_number()?;
    words.end()?;
    Some(Command::Add(key, more))
}

fn put_of(mut words: Words) -> Option<Command>
    ensures { ReadsCommand (codes "put") words.entry result }
{
    let key = words.next_number()?;
    let more = words.next_number()?;
    words.end()?;
    Some(Command::Put(key, more))
}

fn range_of(mut words: Words) -> Option<Command>
    ensures { ReadsCommand (codes "range") words.entry result }
{
    let start = words.next_number()?;
    let end = words.next_number()?;
    let limit = next_limit(&mut words)?;
    words.end()?;
    Some(Command::Range(start, end, limit))
}

fn keys_of(words: Words) -> Option<Command>
    ensures { ReadsCommand (codes "keys") words.entry result }
{
    words.end()?;
    Some(Command::Keys)
}

fn empty_of(words: Words) -> Option<Command>
    ensures { ReadsCommand (codes "empty") words.entry result }
{
    words.end()?;
    Some(Command::Empty)
}

fn first_of(words: Words) -> Option<Command>
    ensures { ReadsCommand (codes "first") words.entry result }
{
    words.end()?;
    Some(Command::First)
}

fn last_of(words: Words) -> Option<Command>
    ensures { ReadsCommand (codes "last") words.entry result }
{
    words.end()?;
    Some(Command::Last)
}

fn floor_of(mut words: Words) -> Option<Command>
    ensures { ReadsCommand (codes "floor") words.entry result }
{
    let key = words.next_number()?;
    words.end()?;
    Some(Command::Floor(key))
}

fn ceiling_of(mut words: Words) -> Option<Command>
    ensures { ReadsCommand (codes "ceiling") words.entry result }
{
    let key = words.next_number()?;
    words.end()?;
    Some(Command::Ceiling(key))
}

fn count_of(words: Words) -> Option<Command>
    ensures { ReadsCommand (codes "count") words.entry result }
{
    words.end()?;
    Some(Command::Count)
}

// The next word as a number of pairs that a range may ask for.
fn next_limit(words: &mut Words) -> Option<u64>
    ensures found { IfSome result (λ n. words_left words.old ≡ decimal n ∷ words_left words.new) }
    ensures range { IfSome result (λ n. n ≤ 4096) }
    ensures none { IfNone result ((n : ℕ) (rest : List (List ℕ))
        → n ≤ 4096 → words_left words.old ≡ decimal n ∷ rest → ⊥) }
{
    let limit = words.next_number()?;
    if limit > MAX_PAIRS {
        return None;
    }
    Some(limit)
}
