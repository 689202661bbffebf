//! Copies of what a schedule over numbers passes in, and of what it gets back.
//!
//! Tested in `test_olc` and `tools/dev/try-schedules`.

ghost use Rattle.std.specs.Prelude.{◌≡◌, Option, Some, None, option_copied};
ghost use Rattle.spec_olc.specs.Calls.{asked_of};
ghost use Rattle.olc_state.specs.inner.Effects.{returned_at};
ghost use Rattle.olc_replay.specs.inner.Played.{last_read};

use olc_state::stage::Record;
use spec_node::child::Child;
use spec_olc::types::{Asking, Env, Kind, Op, Reply, Seen};

/// A copy of the call.
pub(crate) fn copy_op(op: &Op<u64>) -> Op<u64>
    ensures { result ≡ op.now }
{
    match op {
        Op::Get(key) => Op::Get(*key),
        Op::Insert(key, value) => Op::Insert(*key, *value),
        Op::Remove(key) => Op::Remove(*key),
        Op::ComputeIfPresent(key) => Op::ComputeIfPresent(*key),
        Op::ComputeOrInsert(key, otherwise) => Op::ComputeOrInsert(*key, *otherwise),
        Op::CompareExchange(key, old, new) => Op::CompareExchange(*key, *old, *new),
        Op::Range(start, end, limit) => Op::Range(*start, *end, *limit),
    }
}

/// What the reply to a call contains beside what the call finds: the new value of a
/// `CompareExchange`.
pub(crate) fn copy_returned(op: &Op<u64>) -> Option<u64>
    ensures { result ≡ returned_at op.now }
{
    match op {
        Op::CompareExchange(_, _, new) => *new,
        _ => None,
    }
}

/// A copy of the call, if it still has its payloads.
pub(crate) fn copy_some_op(op: &Option<Op<u64>>) -> Option<Op<u64>>
    ensures { result ≡ op.now }
{
    match op {
        None => None,
        Some(op) => Some(copy_op(op)),
    }
}

fn copy_child(child: &Option<Child<u64>>) -> Option<Child<u64>>
    ensures { result ≡ child.now }
{
    match child {
        None => None,
        Some(Child::Payload(value)) => Some(Child::Payload(*value)),
        Some(Child::Node(slot)) => Some(Child::Node(*slot)),
    }
}

/// A copy of the report of a Read.
pub(crate) fn copy_seen(seen: &Seen<u64>) -> Seen<u64>
    ensures { result ≡ seen.now }
{
    Seen {
        child: copy_child(&seen.child),
        count: seen.count,
        full: seen.full,
    }
}

fn copy_some_seen(seen: &Option<Seen<u64>>) -> Option<Seen<u64>>
    ensures { result ≡ seen.now }
{
    match seen {
        None => None,
        Some(seen) => Some(copy_seen(seen)),
    }
}

/// A copy of the choices for an event.
pub(crate) fn copy_env(env: &Env<u64>) -> Env<u64>
    ensures { result ≡ env.now }
{
    Env {
        torn: copy_seen(&env.torn),
        fail: env.fail,
        answer: env.answer,
    }
}

/// A copy of the reply.
pub(crate) fn copy_reply(reply: &Reply<u64>) -> Reply<u64>
    ensures { result ≡ reply.now }
{
    match reply {
        Reply::Old(old) => Reply::Old(*old),
        Reply::Computed(both) => Reply::Computed(*both),
        Reply::Exchanged(result) => Reply::Exchanged(*result),
    }
}

/// What the closure of a call was called with and answered, once it was.
pub(crate) fn asked_of(asking: &Asking<u64>) -> Option<(Option<u64>, Option<u64>)>
    ensures { result ≡ asked_of asking.now }
{
    match asking {
        Asking::Fresh => None,
        Asking::Wants(_) => None,
        Asking::Given(old, answer) => Some((*old, *answer)),
    }
}

/// What a call in flight has seen, if the event is a Read.
pub(crate) fn last_read(kind: Kind, call: Option<&Record<u64>>) -> Option<Seen<u64>>
    ensures { result ≡ last_read kind (option_copied call.entry) }
{
    match kind {
        Kind::Read => match call {
            Some(call) => copy_some_seen(&call.task.last),
            None => None,
        },
        _ => None,
    }
}
