//! The key and the kind of a call, and a copy of it with shares of its payloads.

ghost use Rattle.std.specs.Prelude.{◌≡◌, ◌↔◌, IsTrue, IfOk, IsOk};
ghost use Rattle.spec_olc.specs.Calls.{key_of, outline_of};
ghost use Rattle.spec_olc.specs.Meaning.{in_some, op_of};

use crate::payload::HasMeaning;
use crate::types::Op;
use spec_map::error::OOMError;

// A share of the payload that replaces the stored one, if there is one.
fn share_answer<P: HasMeaning>(new: &Option<P>) -> Result<Option<P>, OOMError>
    ensures meaning { IfOk result (λ copy. in_some P.meaning copy ≡ in_some P.meaning new.now) }
    ensures granted { P.always_shared → IsOk result }
{
    match new {
        None => Ok(None),
        Some(new) => Ok(Some(new.share()?)),
    }
}

impl<P> Op<P> {
    /// The key of a point call, or the start of a range.
    pub fn key(&self) -> u64
        ensures { result ≡ key_of self.now }
    {
        match self {
            Op::Get(key) => *key,
            Op::Insert(key, _) => *key,
            Op::Remove(key) => *key,
            Op::ComputeIfPresent(key) => *key,
            Op::ComputeOrInsert(key, _) => *key,
            Op::CompareExchange(key, _, _) => *key,
            Op::Range(start, _, _) => *start,
        }
    }

    /// Its kind and keys, without payloads.
    pub fn outline(&self) -> Op<()>
        ensures { result ≡ outline_of self.now }
    {
        match self {
            Op::Get(key) => Op::Get(*key),
            Op::Insert(key, _) => Op::Insert(*key, ()),
            Op::Remove(key) => Op::Remove(*key),
            Op::ComputeIfPresent(key) => Op::ComputeIfPresent(*key),
            Op::ComputeOrInsert(key, _) => Op::ComputeOrInsert(*key, ()),
            Op::CompareExchange(key, _, _) => Op::CompareExchange(*key, (), None),
            Op::Range(start, end, limit) => Op::Range(*start, *end, *limit),
        }
    }

    /// Whether it is of this kind and has this key; of a range the same start, end and limit.
    pub fn has_outline(&self, outline: &Op<()>) -> bool
        ensures { IsTrue result ↔ (outline_of self.now ≡ outline.now) }
    {
        match (outline, self) {
            (Op::Get(key), Op::Get(other)) => *other == *key,
            (Op::Insert(key, _), Op::Insert(other, _)) => *other == *key,
            (Op::Remove(key), Op::Remove(other)) => *other == *key,
            (Op::ComputeIfPresent(key), Op::ComputeIfPresent(other)) => *other == *key,
            (Op::ComputeOrInsert(key, _), Op::ComputeOrInsert(other, _)) => *other == *key,
            (Op::CompareExchange(key, _, None), Op::CompareExchange(other, _, _)) => *other == *key,
            (Op::Range(start, end, limit), Op::Range(from, to, most)) => {
                *from == *start && *to == *end && *most == *limit
            }
            _ => false,
        }
    }
}

impl<P: HasMeaning> Op<P> {
    /// The call, with a share of each of its payloads.
    pub fn share(&self) -> Result<Op<P>, OOMError>
        ensures meaning { IfOk result (λ copy. op_of P.meaning copy ≡ op_of P.meaning self.now) }
        ensures granted { P.always_shared → IsOk result }
    {
        match self {
            Op::Get(key) => Ok(Op::Get(*key)),
            Op::Insert(key, value) => Ok(Op::Insert(*key, value.share()?)),
            Op::Remove(key) => Ok(Op::Remove(*key)),
            Op::ComputeIfPresent(key) => Ok(Op::ComputeIfPresent(*key)),
            Op::ComputeOrInsert(key, otherwise) => Ok(Op::ComputeOrInsert(
                *key,
                otherwise.share()?,
            )),
            Op::CompareExchange(key, old, new) => {
                let old = old.share()?;
                Ok(Op::CompareExchange(*key, old, share_answer(new)?))
            }
            Op::Range(start, end, limit) => Ok(Op::Range(*start, *end, *limit)),
        }
    }
}
