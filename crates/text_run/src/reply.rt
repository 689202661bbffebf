//! Replies to lines, and the texts of the replies.
//!
//! Tested in `test_serve` and `tools/dev/try-commands`.

ghost use Rattle.std.specs.Prelude.{◌≡◌, ℕ, ◌+◌, ◌≤◌, ◌++◌, ◌∷◌, List, [], length, Some, None, IfOk, OnOk, OnErr, nat_eq, true};
ghost use Rattle.spec_map.specs.Map.{lookup, put as put_pair, with_answer};

use crate::command::command_of;
use face_runs::calls::pairs_between;
use face_typed::typed_congee::Congee;
use node_table::allocator::Allocator;
use spec_map::error::OOMError;
use spec_text::command::Command;
use std::alloc::Global;
use std::io::Write;
use text_lines::line::LineBuffer;
use text_lines::listing::{put_keys, put_pairs};
use text_lines::pending::Pending;
use text_lines::watched::{Failed, Watched};

/// The reply to a line.
#[derive(Debug, PartialEq, Eq, Drop)]
pub enum LineReply {
    /// The value of a key.
    Value(Option<u64>),
    /// It was done, and this was the value before.
    Before(Option<u64>),
    /// `Ok`: what an exchange stored. `Err`: the current value, which isn't the expected one.
    Exchanged(Result<Option<u64>, Option<u64>>),
    /// The old value, and what was made of it.
    Computed(Option<(u64, Option<u64>)>),
    /// Yes or no.
    Tested(bool),
    /// The pairs of a range, ascending.
    Ranged(Vec<(u64, u64)>),
    /// All keys, ascending.
    Listed(Vec<u64>),
    /// A pair, if there is one.
    Found(Option<(u64, u64)>),
    /// How many keys there are.
    Counted(u128),
    /// There was no memory for it, and the map is unchanged.
    Refused,
    /// The line is no command.
    BadLine,
}

ghost use Rattle.spec_map.specs.Legal.{IsLegal, AnswersBy};
ghost use Rattle.spec_map.specs.Refusal.{NeedsNode, at_new_node};
ghost use Rattle.spec_text.specs.Answer.{answer_text};
ghost use Rattle.spec_text.specs.Command.{checked_sum, put_sum, command_closure};
ghost use Rattle.spec_text.specs.Lines.{ended};
ghost use Rattle.text_lines.specs.inner.Kept.{IsKeptOf};
ghost use Rattle.text_lines.specs.Watched.{SendsTo, SendsPart};
ghost use Rattle.text_run.specs.inner.Replied.{line_reply_text, head_text, items_text, reply_answer, reply_asked, reply_operation};
ghost use Rattle.text_run.specs.inner.Answers.{AnswersLine};

/// Executes the line's command. The map takes memory for a new key, and a reply for what it lists.
/// If there is none, the reply is `Refused` and the map is unchanged.
pub fn reply_to<A: Allocator>(
    alloc: Global,
    map: &mut Congee<u64, u64, A>,
    line: &LineBuffer,
) -> LineReply
    ensures { (l : List ℕ) → IsKeptOf line.now l
        → AnswersLine map.old.pairs l (line_reply_text result) map.new.pairs }
{
    match line.text() {
        Some(text) => reply_to_text(alloc, map, text),
        None => LineReply::BadLine,
    }
}

fn reply_to_text<A: Allocator>(
    alloc: Global,
    map: &mut Congee<u64, u64, A>,
    text: &[u8],
) -> LineReply
    ensures { AnswersLine map.old.pairs text.now (line_reply_text result) map.new.pairs }
{
    match command_of(text) {
        Some(command) => execute(alloc, map, command),
        None => LineReply::BadLine,
    }
}

fn execute<A: Allocator>(
    alloc: Global,
    map: &mut Congee<u64, u64, A>,
    command: Command,
) -> LineReply
    ensures text { line_reply_text result ≡ answer_text command (reply_answer result) }
    ensures closure { AnswersBy (command_closure command) (reply_asked command result) }
    ensures legal { IsLegal nat_eq at_new_node map.old.pairs
        (reply_operation command result ∷ []) map.new.pairs }
{
    match command {
        Command::Get(key) => LineReply::Value(map.get(&key)),
        Command::Insert(key, value) => match map.insert(key, value) {
            Ok(before) => LineReply::Before(before),
            Err(_) => LineReply::Refused,
        },
        Command::Remove(key) => LineReply::Value(map.remove(&key)),
        Command::Exchange(key, old, new) => {
            LineReply::Exchanged(map.compare_exchange(&key, &old, new))
        }
        Command::Add(key, more) => LineReply::Computed(add(map, key, more)),
        Command::Put(key, more) => match put(map, key, more) {
            Ok(before) => LineReply::Before(before),
            Err(_) => LineReply::Refused,
        },
        Command::Range(start, end, limit) => {
            match pairs_between(alloc, map, &start, &end, limit as usize) {
                Ok(pairs) => LineReply::Ranged(pairs),
                Err(_) => LineReply::Refused,
            }
        }
        Command::Keys => match map.keys() {
            Ok(keys) => LineReply::Listed(keys),
            Err(_) => LineReply::Refused,
        },
        Command::Empty => LineReply::Tested(map.is_empty()),
        Command::First => LineReply::Found(map.first()),
        Command::Last => LineReply::Found(map.last()),
        Command::Floor(key) => LineReply::Found(map.floor(&key)),
        Command::Ceiling(key) => LineReply::Found(map.ceiling(&key)),
        Command::Count => LineReply::Counted(map.value_count()),
    }
}

// Adds to the value of a key that is present, and returns it and the sum. Takes the key out where the sum doesn't fit.
fn add<A: Allocator>(
    map: &mut Congee<u64, u64, A>,
    key: u64,
    more: u64,
) -> Option<(u64, Option<u64>)>
    ensures absent { lookup map.old.pairs key ≡ None
        → (result ≡ None) × (map.new.pairs ≡ map.old.pairs) }
    ensures present { (current : ℕ) → lookup map.old.pairs key ≡ Some current
        → (result ≡ Some (current, checked_sum current more))
        × (map.new.pairs ≡ with_answer map.old.pairs key (checked_sum current more)) }
{
    map.compute_if_present(&key, &mut |value: u64| sum(value, more))
}

// The sum, where it fits.
fn sum(value: u64, more: u64) -> Option<u64>
    ensures { result ≡ checked_sum value more }
{
    value.checked_add(more)
}

// Adds to the value of a key (0 if it is absent). The sum saturates at `u64::MAX`. Returns the previous value.
fn put<A: Allocator>(
    map: &mut Congee<u64, u64, A>,
    key: u64,
    more: u64,
) -> Result<Option<u64>, OOMError>
    ensures before { IfOk result (λ before. before ≡ lookup map.old.pairs key) }
    ensures ok { OnOk result (map.new.pairs
        ≡ put_pair map.old.pairs key (put_sum (lookup map.old.pairs key) more)) }
    ensures err { OnErr result (map.new.pairs ≡ map.old.pairs) }
    ensures refused { OnErr result (NeedsNode map.old.pairs key) }
{
    map.compute_or_insert(
        key,
        &mut |value: Option<u64>| sum_up_to_the_greatest(value, more),
    )
}

fn sum_up_to_the_greatest(value: Option<u64>, more: u64) -> u64
    ensures { result ≡ put_sum value more }
{
    match value {
        None => more,
        Some(value) => value.saturating_add(more),
    }
}

/// Adds a line with the text of the reply, and writes what was kept before where there is no room
/// for it. At an `Err` a first part of it all was written.
pub fn put_reply<W: Write>(
    pending: &mut Pending,
    output: &mut Watched<W>,
    reply: &LineReply,
) -> Result<(), Failed>
    ensures ok { OnOk result (SendsTo W.contents output.old output.new
        (pending.old ++ ended (line_reply_text reply.now)) pending.new) }
    ensures err { OnErr result (SendsPart W.contents output.old output.new
        (pending.old ++ ended (line_reply_text reply.now))) }
    ensures kept { OnOk result (output.new.failed ≡ output.old.failed) }
    ensures failed { OnErr result (output.new.failed ≡ true) }
{
    pending.make_room(output)?;
    add_head(pending, reply);
    put_items(pending, output, reply)?;
    pending.add(b"\n");
    Ok(())
}

// Adds a reply without what it lists.
fn add_head(pending: &mut Pending, reply: &LineReply)
    requires { length pending.old + 64 ≤ 8192 }
    ensures text { pending.new ≡ pending.old ++ head_text reply.now }
    ensures short { length pending.new ≤ length pending.old + 48 }
{
    match reply {
        LineReply::Value(value) => pending.add_value(*value),
        LineReply::Before(before) => {
            pending.add(b"ok ");
            pending.add_value(*before);
        }
        LineReply::Exchanged(exchange) => pending.add_exchanged(*exchange),
        LineReply::Computed(both) => pending.add_computed(*both),
        LineReply::Tested(true) => pending.add(b"true"),
        LineReply::Tested(false) => pending.add(b"false"),
        LineReply::Ranged(pairs) => pending.add_number(pairs.len() as u64),
        LineReply::Listed(keys) => pending.add_number(keys.len() as u64),
        LineReply::Found(pair) => pending.add_found(*pair),
        LineReply::Counted(count) => pending.add_count(*count),
        LineReply::Refused => pending.add(b"oom"),
        LineReply::BadLine => pending.add(b"bad line"),
    }
}

// Adds what a reply lists, and writes what is kept whenever there is no room.
fn put_items<W: Write>(
    pending: &mut Pending,
    output: &mut Watched<W>,
    reply: &LineReply,
) -> Result<(), Failed>
    requires { length pending.old + 16 ≤ 8192 }
    ensures ok { OnOk result (SendsTo W.contents output.old output.new
        (pending.old ++ items_text reply.now) pending.new) }
    ensures room { OnOk result (length pending.new + 16 ≤ 8192) }
    ensures err { OnErr result (SendsPart W.contents output.old output.new
        (pending.old ++ items_text reply.now)) }
    ensures kept { OnOk result (output.new.failed ≡ output.old.failed) }
    ensures failed { OnErr result (output.new.failed ≡ true) }
{
    match reply {
        LineReply::Ranged(pairs) => put_pairs(pending, output, pairs),
        LineReply::Listed(keys) => put_keys(pending, output, keys),
        _ => Ok(()),
    }
}
