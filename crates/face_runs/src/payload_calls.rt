//! Calls of `CongeeArc` as data, and whole runs of them.
//!
//! Tested in `test_owned/faces`.

ghost use Rattle.std.specs.Prelude.{◌≡◌, Some, None, IfOk, OnErr};
ghost use Rattle.spec_map.specs.Map.{lookup, with_answer};
ghost use Rattle.spec_map.specs.Refusal.{at_new_node};
ghost use Rattle.face_runs.specs.PayloadCalls.{IsLegalPayloadReply, AreLegalPayloadReplies};

use face_payloads::congee_arc::PayloadCongee;
use node_table::allocator::Allocator;
use spec_map::error::OOMError;
use spec_map::payload::Payload;
use spec_map::traits::Word;
use std::alloc::Global;

/// A call with keys of type `K` and payloads of type `P`, which is passed by value.
#[derive(Drop)]
pub enum PayloadCall<K: Copy, P> {
    /// The payload at a key.
    Get(K),
    /// Sets the payload at a key.
    Insert(K, P),
    /// Removes a key.
    Remove(K),
    /// Stores what the closure returns at a key that is present, or removes the key. It returns this, whatever its
    /// argument.
    ComputeIfPresent(K, Option<P>),
    /// Whether there is no pair.
    IsEmpty,
    /// All keys.
    Keys,
}

/// What a call returns.
#[derive(Drop)]
pub enum PayloadReply<K: Copy, P> {
    /// A clone of the current value, if the key is present.
    Seen(Option<P>),
    /// The key is present, but there was no memory for a clone of its value.
    Unseen,
    /// The previous value.
    Old(Option<P>),
    /// Whether a test held.
    Tested(bool),
    /// The keys, ascending.
    Listed(Vec<K>),
    /// There was no memory for it, and nothing was changed.
    Refused,
}

/// Makes one call.
pub fn make_payload_call<K: Word, P: Payload, A: Allocator>(
    map: &mut PayloadCongee<K, P, A>,
    call: PayloadCall<K, P>,
) -> PayloadReply<K, P>
    ensures { IsLegalPayloadReply K.number K.of_number P.alike P.tells_same at_new_node
        map.old.pairs call result map.new.pairs }
{
    match call {
        PayloadCall::Get(key) => match map.get(key) {
            None => PayloadReply::Seen(None),
            Some(current) => match current.share() {
                Ok(copy) => PayloadReply::Seen(Some(copy)),
                Err(_) => PayloadReply::Unseen,
            },
        },
        PayloadCall::Insert(key, payload) => match map.insert(key, payload) {
            Ok(before) => PayloadReply::Old(before),
            Err(_) => PayloadReply::Refused,
        },
        PayloadCall::Remove(key) => PayloadReply::Old(map.remove(key)),
        PayloadCall::ComputeIfPresent(key, answer) => PayloadReply::Old(change(map, key, answer)),
        PayloadCall::IsEmpty => PayloadReply::Tested(map.is_empty()),
        PayloadCall::Keys => match map.keys() {
            Ok(keys) => PayloadReply::Listed(keys),
            Err(_) => PayloadReply::Refused,
        },
    }
}

// Makes the call whose closure returns this at a key that is present.
fn change<K: Word, P: Payload, A: Allocator>(
    map: &mut PayloadCongee<K, P, A>,
    key: K,
    answer: Option<P>,
) -> Option<P>
    ensures before { result ≡ lookup map.old.pairs (K.number key) }
    ensures absent { lookup map.old.pairs (K.number key) ≡ None → map.new.pairs ≡ map.old.pairs }
    ensures present { (current : P) → lookup map.old.pairs (K.number key) ≡ Some current
        → map.new.pairs ≡ with_answer map.old.pairs (K.number key) answer }
{
    let mut given = answer;
    map.compute_if_present(key, &mut |_standing: &P| given.take())
}

/// Makes the calls, one after another, and returns their replies. `OOMError` comes where there is no memory for the
/// list of replies; then the map is unchanged.
pub fn run_payload_calls<K: Word, P: Payload, A: Allocator>(
    alloc: Global,
    map: &mut PayloadCongee<K, P, A>,
    calls: Vec<PayloadCall<K, P>>,
) -> Result<Vec<PayloadReply<K, P>>, OOMError>
    ensures run { IfOk result (λ replies.
        AreLegalPayloadReplies K.number K.of_number P.alike P.tells_same at_new_node
        map.old.pairs calls.items replies.items map.new.pairs) }
    ensures err { OnErr result (map.new ≡ map.old) }
{
    let mut replies = Vec::with_capacity(alloc, calls.len())?;
    for call in calls {
        replies.push(make_payload_call(map, call)).unwrap();
    }
    Ok(replies)
}
