//! All pairs of one moment: as a list, and as a map with one owner. And a map from one that has an owner.
//!
//! Each node is locked while the pairs are copied. So writers are busy then, and look-ups wait or are busy where a node is
//! locked.
//!
//! Tested in `test_live_faces`.
ghost use Rattle.std.specs.Prelude.{◌≡◌, nat_eq, IfOk, IfErr, OnErr};
ghost use Rattle.share_rule.specs.History.{IsHistory};
ghost use Rattle.live_scans.specs.Scans.{GaveUp, HasWaited, Waits};
ghost use Rattle.live_copies.specs.Copies.{HasCopied};
ghost use Rattle.live_faces.specs.Returned.{ReturnsAll, pair_of};

use super::{Congee, Guard, Refusal};
use face_typed::typed_congee::Congee as Owned;
use live_copies::copy::copy;
use live_copies::moves::{copied, moved_in, moved_out};
use live_copies::numbers::pairs_back;
use spec_map::error::OOMError;
use spec_map::traits::Word;
use std::alloc::{AllocFailed, Global};
use std::marker::PhantomData;
use std::sync::Wait;

impl<K: Word, V: Word> Congee<K, V> {
    /// All pairs of one moment, keys ascending, each read back from its numbers. `Refusal::Busy` if too many writers came in
    /// between, and `Refusal::OutOfMemory` if there is no memory for the pairs. It takes 32 bytes and more a pair meanwhile.
    pub fn try_snapshot(&self, alloc: Global, guard: &mut Guard) -> Result<Vec<(K, V)>, Refusal>
        requires map { guard.old.book ≡ self.now }
        ensures map { guard.new.book ≡ guard.old.book }
        ensures copied { IfOk result (λ pairs. ReturnsAll (pair_of K.of_number V.of_number)
            guard.old pairs.items guard.new) }
        ensures refused { OnErr result (GaveUp guard.old guard.new) }
    {
        let numbers = copy(&self.pool.map, alloc, guard)?;
        match pairs_back(alloc, &numbers) {
            Ok(pairs) => Ok(pairs),
            Err(_) => Err(Refusal::OutOfMemory),
        }
    }

    /// All pairs of one moment, keys ascending, each read back from its numbers. Pauses where `try_snapshot` is busy, and goes
    /// on. `OOMError` if there is no memory for the pairs. It takes 32 bytes and more a pair meanwhile.
    pub fn snapshot<R: Wait>(
        &self,
        rt: &R,
        alloc: Global,
        guard: &mut Guard,
    ) -> Result<Vec<(K, V)>, OOMError>
        requires map { guard.old.book ≡ self.now }
        ensures map { guard.new.book ≡ guard.old.book }
        ensures copied { IfOk result (λ pairs. Waits guard.old
            (λ k. ReturnsAll (pair_of K.of_number V.of_number) k pairs.items guard.new)) }
        ensures refused { OnErr result (HasWaited guard.old guard.new) }
    {
        let numbers = copied(rt, &self.pool.map, alloc, guard)?;
        match pairs_back(alloc, &numbers) {
            Ok(pairs) => Ok(pairs),
            Err(_) => Err(OOMError::new()),
        }
    }

    /// The map with one owner. Its pairs are those that the guard's history leads to then. If there is no memory for it, the
    /// error gives this map back, as it was. What the guards of this map know lasts. They can meet, and make no more calls.
    pub fn into_owned<R: Wait>(
        self,
        rt: &R,
        alloc: Global,
        guard: &mut Guard,
    ) -> Result<Owned<K, V>, AllocFailed<Self>>
        requires map { guard.old.book ≡ self }
        ensures map { guard.new.book ≡ guard.old.book }
        ensures moved { IfOk result (λ owned. Waits guard.old (λ k. HasCopied k owned.pairs guard.new)) }
        ensures kept { IfErr result (λ failed. failed.value ≡ self) }
        ensures refused { OnErr result (HasWaited guard.old guard.new) }
    {
        match moved_out(rt, &self.pool.map, alloc, guard) {
            Ok(owned) => Ok(owned),
            Err(_) => Err(AllocFailed { value: self }),
        }
    }

    /// A map for threads, without a limit, from one with an owner, and a guard. The guard's history leads to the pairs of that
    /// one. If memory is missing, the error gives the map back. Beside both maps it takes 32 bytes a pair meanwhile.
    pub fn from_owned<R: Wait>(
        rt: &R,
        alloc: Global,
        owned: Owned<K, V>,
    ) -> Result<(Self, Guard), AllocFailed<Owned<K, V>>>
        ensures map { IfOk result (λ both. both.1.book ≡ both.0) }
        ensures moved { IfOk result (λ both. IsHistory nat_eq both.1.seen owned.pairs) }
        ensures kept { IfErr result (λ failed. failed.value ≡ owned) }
    {
        match moved_in(rt, alloc, &owned) {
            Ok((pool, guard)) => Ok((
                Congee {
                    pool,
                    of: PhantomData,
                },
                guard,
            )),
            Err(_) => Err(AllocFailed { value: owned }),
        }
    }
}
