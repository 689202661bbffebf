//! All keys of one moment.
//!
//! Tested in `test_live_payloads`.
ghost use Rattle.std.specs.Prelude.{IfOk, OnErr};
ghost use Rattle.live_scans.specs.Scans.{GaveUp, HasWaited, Waits};
ghost use Rattle.live_payloads.specs.Payloads.{IsGuardOf, KnowsMore};
ghost use Rattle.live_payloads.specs.Moves.{HasListedKeys};

use super::PayloadCongee;
use crate::guard::PayloadGuard;
use live_copies::copy::copy;
use live_copies::moves::copied;
use live_copies::numbers::keys_back;
use live_growth::map::Refusal;
use spec_map::error::OOMError;
use spec_map::traits::Word;
use std::alloc::Global;
use std::sync::Wait;

impl<K: Word, P: Drop> PayloadCongee<K, P> {
    /// All keys of one moment, ascending, each read back from its number. `Refusal::Busy` if too many writers came in between,
    /// and `Refusal::OutOfMemory` if there is no memory for the keys. It takes 32 bytes and more a pair meanwhile.
    pub fn try_keys(&self, alloc: Global, guard: &mut PayloadGuard<P>) -> Result<Vec<K>, Refusal>
        requires map { IsGuardOf self.now guard.old }
        ensures map { KnowsMore guard.old guard.new }
        ensures listed { IfOk result (λ keys.
            HasListedKeys K.of_number guard.old.tickets keys.items guard.new.tickets) }
        ensures refused { OnErr result (GaveUp guard.old.tickets guard.new.tickets) }
    {
        let pairs = copy(&self.pool.map, alloc, &mut guard.guard)?;
        match keys_back(alloc, &pairs) {
            Ok(keys) => Ok(keys),
            Err(_) => Err(Refusal::OutOfMemory),
        }
    }

    /// All keys of one moment, ascending, each read back from its number. Pauses where `try_keys` is busy, and goes on.
    /// `OOMError` if there is no memory for the keys. It takes 32 bytes and more a pair meanwhile.
    pub fn keys<R: Wait>(
        &self,
        rt: &R,
        alloc: Global,
        guard: &mut PayloadGuard<P>,
    ) -> Result<Vec<K>, OOMError>
        requires map { IsGuardOf self.now guard.old }
        ensures map { KnowsMore guard.old guard.new }
        ensures listed { IfOk result (λ keys. Waits guard.old.tickets
            (λ k. HasListedKeys K.of_number k keys.items guard.new.tickets)) }
        ensures refused { OnErr result (HasWaited guard.old.tickets guard.new.tickets) }
    {
        let pairs = copied(rt, &self.pool.map, alloc, &mut guard.guard)?;
        match keys_back(alloc, &pairs) {
            Ok(keys) => Ok(keys),
            Err(_) => Err(OOMError::new()),
        }
    }
}
