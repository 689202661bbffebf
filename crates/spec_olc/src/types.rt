//! The events of a schedule, and what the machine reports of each.

use spec_map::error::OOMError;
use spec_node::child::Child;

/// What a Read reports of a node: the child under the key's byte (of a range, the first one from its bound on), how
/// many children the node has, and whether it has no room for one more.
#[derive(Drop)]
pub struct Seen<P> {
    pub child: Option<Child<P>>,
    pub count: u16,
    pub full: bool,
}

/// What the schedule chooses for one event. An event uses the part of its kind and ignores the others.
#[derive(Drop)]
pub struct Env<P> {
    /// What a Read reports if the node's word isn't the one that the call remembers.
    pub torn: Seen<P>,
    /// Makes an Upgrade fail.
    pub fail: bool,
    /// The closure's answer, which an Answer takes.
    pub answer: Option<P>,
}

/// The kinds of events (*The ART of Practical Synchronization*, Leis et al., in single steps).
#[derive(Clone, Copy, Debug, PartialEq, Eq)]
pub enum Kind {
    /// Begins a call and takes its pin.
    Start,
    /// Reports a node's word.
    Take,
    /// Compares a node's word with the remembered one.
    Check,
    /// Reports a child of a node, and how full the node is.
    Read,
    /// Locks a node.
    Upgrade,
    /// Makes a private node.
    Make,
    /// Changes one entry of a held node.
    Write,
    /// Marks a held node as obsolete and retires it.
    Obsolete,
    /// Unlocks a held node.
    Unlock,
    /// Takes a closure's answer.
    Answer,
    /// Ends a call.
    Finish,
    /// Reclaims the slot of a retired node; not a step of a call.
    Reclaim,
}

/// What an event reports: `ok`, which is false only at a Take of a node that is locked or obsolete, a Check that fails
/// and an Upgrade that fails; the slot that it touches, if any; the node's word at a Take, else 0.
///
/// (The two bytes stand side by side: where each had eight bytes to itself, copying the unused ones took a third of an
/// event's time.)
#[derive(Clone, Copy, Debug, PartialEq, Eq)]
pub struct Report {
    pub kind: Kind,
    pub ok: bool,
    pub slot: Option<usize>,
    pub word: u64,
}

/// A call as it starts, with its payloads. All but `Range` are point calls.
#[derive(Drop)]
pub enum Op<P> {
    Get(u64),
    Insert(u64, P),
    Remove(u64),
    ComputeIfPresent(u64),
    /// The value is stored if the closure answers `None`.
    ComputeOrInsert(u64, P),
    /// The expected value, and what replaces it: a payload, or `None` to remove the key.
    CompareExchange(u64, P, Option<P>),
    /// From a key on, below a key, at most this many pairs.
    Range(u64, u64, u64),
}

/// The reply to a point call.
#[derive(Drop)]
pub enum Reply<P> {
    /// The previous value of the key.
    Old(Option<P>),
    /// The previous value, and what the closure answered; `None` if the key is absent.
    Computed(Option<(P, Option<P>)>),
    /// The new value, or the current one if it isn't the expected one.
    Exchanged(Result<Option<P>, Option<P>>),
}

/// The outcome of an event, beside its report.
#[derive(Drop)]
pub enum Outcome<P> {
    Going,
    /// The closure is to be called with this.
    Ask(Option<P>),
    /// A pair of a range.
    Pair(u64, P),
    /// The call's reply is fixed.
    Decided(Reply<P>),
    /// Memory, or a share of a payload, was refused: the call only ends.
    Refused,
    /// The call has ended.
    Done,
    /// No such call is in flight; nothing was done.
    Unknown,
}

/// How far a call is with its closure since it last went back to the root.
#[derive(Drop)]
pub enum Asking<P> {
    Fresh,
    /// The closure is to be called with this.
    Wants(Option<P>),
    /// What the closure was called with, and its answer.
    Given(Option<P>, Option<P>),
}

/// Whether a call has its reply, or was refused.
#[derive(Clone, Copy)]
pub enum Progress {
    Open,
    Decided,
    Refused,
}

/// Why a call wasn't started; nothing was done.
#[derive(Clone, Copy, Debug, PartialEq, Eq)]
pub enum StartError {
    /// The number's last call hasn't ended.
    InFlight,
    Oom(OOMError),
}

/// An event of a schedule.
#[derive(Drop)]
pub enum Event<P> {
    Start(u64, Op<P>),
    Step(u64, Env<P>),
    Reclaim(usize),
}
