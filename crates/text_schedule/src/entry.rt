//! The entries of a schedule, and the lines that parse as entries.
//!
//! Tested in `test_serve` and `tools/dev/try-schedules`.

ghost use Rattle.std.specs.Prelude.{◌≡◌, ℕ, List, ◌∷◌, ◌<◌, ◌≤◌, IfSome, IfNone, codes, decimal};

use spec_node::child::Child;
use spec_olc::types::Op;
use spec_text::entry::Entry;
use text_lines::words::Words;

/// How many steps a line may ask for.
pub const MAX_STEPS: u64 = 10000;

ghost use Rattle.text_lines.specs.inner.Words.{words_left};
ghost use Rattle.spec_text.specs.Entry.{SpellsEntry, IsNoEntry};
ghost use Rattle.text_schedule.specs.inner.EntryReading.{ReadsEntry, ReadsOp, ReadsChild};

/// The entry that a line parses as. The line feed at its end is no part of a line.
pub fn entry_of(line: &[u8]) -> Option<Entry>
    ensures parsed { IfSome result (SpellsEntry line.now) }
    ensures bad { IfNone result (IsNoEntry line.now) }
{
    let mut words = Words::new(line);
    let name = words.next_word()?;
    named(name, words)
}

// The entry with this first word and these after it.
fn named(name: &[u8], words: Words) -> Option<Entry>
    ensures { ReadsEntry name.now words.entry result }
{
    if name == b"start".as_slice() {
        return start_of(words);
    }
    if name == b"step".as_slice() {
        return step_of(words);
    }
    if name == b"torn".as_slice() {
        return torn_of(words);
    }
    if name == b"fail".as_slice() {
        return fail_of(words);
    }
    if name == b"answer".as_slice() {
        return answer_of(words);
    }
    if name == b"reclaim".as_slice() {
        return reclaim_of(words);
    }
    None
}

fn start_of(mut words: Words) -> Option<Entry>
    ensures { ReadsEntry (codes "start") words.entry result }
{
    let id = words.next_number()?;
    let name = words.next_word()?;
    let op = op_named(name, words)?;
    Some(Entry::Start(id, op))
}

fn step_of(mut words: Words) -> Option<Entry>
    ensures { ReadsEntry (codes "step") words.entry result }
{
    let id = words.next_number()?;
    if words.end().is_some() {
        return Some(Entry::Step(id));
    }
    let count = next_count(&mut words)?;
    words.end()?;
    Some(Entry::Steps(id, count))
}

// The next word as a number of steps.
fn next_count(words: &mut Words) -> Option<u64>
    ensures found { IfSome result (λ n. words_left words.old ≡ decimal n ∷ words_left words.new) }
    ensures range { IfSome result (λ n. (0 < n) × (n ≤ 10000)) }
    ensures none { IfNone result ((n : ℕ) (rest : List (List ℕ))
        → 0 < n → n ≤ 10000 → words_left words.old ≡ decimal n ∷ rest → ⊥) }
{
    let count = words.next_number()?;
    if count == 0 {
        return None;
    }
    if count > MAX_STEPS {
        return None;
    }
    Some(count)
}

fn torn_of(mut words: Words) -> Option<Entry>
    ensures { ReadsEntry (codes "torn") words.entry result }
{
    let id = words.next_number()?;
    let name = words.next_word()?;
    let child = child_named(name, words)?;
    Some(Entry::Torn(id, child))
}

// What a torn read reports, by these words.
fn child_named(name: &[u8], mut words: Words) -> Option<Option<Child<u64>>>
    ensures { ReadsChild name.now words.entry result }
{
    if name == b"none".as_slice() {
        words.end()?;
        return Some(None);
    }
    if name == b"value".as_slice() {
        let value = words.next_number()?;
        words.end()?;
        return Some(Some(Child::Payload(value)));
    }
    if name == b"node".as_slice() {
        let slot = words.next_number()?;
        words.end()?;
        return Some(Some(Child::Node(slot as usize)));
    }
    None
}

fn fail_of(mut words: Words) -> Option<Entry>
    ensures { ReadsEntry (codes "fail") words.entry result }
{
    let id = words.next_number()?;
    words.end()?;
    Some(Entry::Fail(id))
}

fn answer_of(mut words: Words) -> Option<Entry>
    ensures { ReadsEntry (codes "answer") words.entry result }
{
    let id = words.next_number()?;
    let answer = words.next_value()?;
    words.end()?;
    Some(Entry::Answer(id, answer))
}

fn reclaim_of(mut words: Words) -> Option<Entry>
    ensures { ReadsEntry (codes "reclaim") words.entry result }
{
    let slot = words.next_number()?;
    words.end()?;
    Some(Entry::Reclaim(slot as usize))
}

// The call with this name and these words after it.
fn op_named(name: &[u8], words: Words) -> Option<Op<u64>>
    ensures { ReadsOp name.now words.entry result }
{
    if name == b"get".as_slice() {
        return get_of(words);
    }
    if name == b"insert".as_slice() {
        return insert_of(words);
    }
    if name == b"remove".as_slice() {
        return remove_of(words);
    }
    if name == b"present".as_slice() {
        return present_of(words);
    }
    if name == b"orinsert".as_slice() {
        return or_insert_of(words);
    }
    if name == b"cas".as_slice() {
        return exchange_of(words);
    }
    if name == b"range".as_slice() {
        return range_of(words);
    }
    None
}

fn get_of(mut words: Words) -> Option<Op<u64>>
    ensures { ReadsOp (codes "get") words.entry result }
{
    let key = words.next_number()?;
    words.end()?;
    Some(Op::Get(key))
}

fn insert_of(mut words: Words) -> Option<Op<u64>>
    ensures { ReadsOp (codes "insert") words.entry result }
{
    let key = words.next_number()?;
    let value = words.next_number()?;
    words.end()?;
    Some(Op::Insert(key, value))
}

fn remove_of(mut words: Words) -> Option<Op<u64>>
    ensures { ReadsOp (codes "remove") words.entry result }
{
    let key = words.next_number()?;
    words.end()?;
    Some(Op::Remove(key))
}

fn present_of(mut words: Words) -> Option<Op<u64>>
    ensures { ReadsOp (codes "present") words.entry result }
{
    let key = words.next_number()?;
    words.end()?;
    Some(Op::ComputeIfPresent(key))
}

fn or_insert_of(mut words: Words) -> Option<Op<u64>>
    ensures { ReadsOp (codes "orinsert") words.entry result }
{
    let key = words.next_number()?;
    let otherwise = words.next_number()?;
    words.end()?;
    Some(Op::ComputeOrInsert(key, otherwise))
}

fn exchange_of(mut words: Words) -> Option<Op<u64>>
    ensures { ReadsOp (codes "cas") words.entry result }
{
    let key = words.next_number()?;
    let old = words.next_number()?;
    let new = words.next_value()?;
    words.end()?;
    Some(Op::CompareExchange(key, old, new))
}

fn range_of(mut words: Words) -> Option<Op<u64>>
    ensures { ReadsOp (codes "range") words.entry result }
{
    let start = words.next_number()?;
    let end = words.next_number()?;
    let limit = words.next_number()?;
    words.end()?;
    Some(Op::Range(start, end, limit))
}
