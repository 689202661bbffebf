//! `CongeeArc`, the map from keys to owners of shared values, which threads share.
//!
//! Tested in `share_maps` and `test_share_guards`.

ghost use Rattle.std.specs.Prelude.{◌≡◌, ◌≢◌, ◌+◌, ◌^◌, [], IfOk, OnErr, MatchResult, map};
ghost use Rattle.std.specs.Arc.{arc_value};
ghost use Rattle.spec_map.specs.Call.{count, counted, get, insert, old_value, remove};
ghost use Rattle.spec_map.specs.Map.{Pairs, IsMap};
ghost use Rattle.spec_olc.specs.Meaning.{in_some};
ghost use Rattle.share_backend.specs.Owners.{never_same};
ghost use Rattle.share_state.specs.Held.{inserted, removed};
ghost use Rattle.share_rule.specs.Known.{MadeCall, SeenMore};
ghost use Rattle.share_holds.specs.Closures.{Reaches};
ghost use Rattle.share_guards.specs.Operations.{returned};
ghost use Rattle.share_faces.specs.Returned.{ReturnsComputed};

mod ends;

use node_stats::NodeStats;
use node_table::allocator::DefaultAllocator;
use share_backend::snapshots::{Made, Owners};
use share_guards::pin::PinError;
use share_guards::raw;
use share_guards::raw::Raw;
use share_holds::gate::{Gate, NoGate};
use share_state::purse::OwnPurse;
use share_state::share::Share;
use share_state::state::LockedState;
use spec_map::error::OOMError;
use spec_map::traits::Word;
use std::alloc::Global;
use std::marker::{Model, PhantomData};
use std::sync::ledger::{Blank, Ledger};
use std::sync::{Arc, Wait};

/// A caller of a shared map of owners. It belongs to one map, and makes one call at a time. Contracts see which map, the
/// caller's number, and the history that it has seen: of an owner they see the value that it owns.
pub type OwnerGuard<'a, L, V, M> = raw::Guard<'a, L, Arc<V>, V, M>;

/// An ordered map from keys to owners of shared values, which threads share. Two keys with one number are one key.
///
/// Contracts see which map it is. Each call is made by a guard of the map. What the guard has seen after a call is one
/// legal history of the map: it begins with what the guard had seen before, and ends with the call and its reply.
///
/// A call returns one more owner, which needs room in the count of owners and may be refused.
#[derive(Drop)]
pub struct CongeeArc<L: Ledger, K: Word, V: Send + Sync + Drop + 'static, M: Owners<V>> {
    raw: Raw<L, Arc<V>, V, M>,
    of: PhantomData<K>,
}

// The first of two owners.
fn previous_of<P: Drop>(both: Option<(P, Option<P>)>) -> Option<P>
    ensures { result ≡ in_some (λ pair. pair.0) both }
{
    match both {
        Some((previous, _)) => Some(previous),
        None => None,
    }
}

impl<L: Ledger, K: Word, V: Send + Sync + Drop + 'static, M: Owners<V>> Model
    for CongeeArc<L, K, V, M> {
    ghost use Rattle.std.specs.Prelude.{◌≡◌};
    ghost use Rattle.std.specs.Arc.{arc_value};
    ghost use Rattle.atomic_table.specs.Seated.{TableId, table_id_coded};
    ghost use Rattle.share_backend.specs.Owners.{never_same};

    ghost Value = { TableId };

    ghost coded = { table_id_coded };

    ghost view = { λ m. m.raw };

    // an owner in the map under the lock represents the value that it owns
    ghost invariant = { λ m. (M.Lent.meaning ≡ (λ owner. arc_value owner)) × (M.Lent.same ≡ never_same) };
}

impl<L: Ledger, K: Word, V: Send + Sync + Drop + 'static, M: Owners<V>> CongeeArc<L, K, V, M> {
    /// An empty map, and the share with its whole weight. `OOMError` if there is no memory for the map.
    pub fn new(alloc: Global, blank: Blank) -> Result<(Self, Share<L>), OOMError>
    where
        M: Made<Arc<V>, V, DefaultAllocator>,
        requires name { blank.name ≡ L.name }
        requires parts { blank.parts ≡ L.parts }
        requires whole { L.parts ≡ 2 ^ 63 + 1 }
        ensures share { IfOk result (λ r. r.1 ≡ record { weight = 2 ^ 63; number = 0 }) }
    {
        CongeeArc::new_in(alloc, blank, DefaultAllocator {})
    }

    /// An empty map, and the share with its whole weight. The allocator is charged for each node of the map's tree.
    /// `OOMError` if it or the machine has no memory for the map.
    pub fn new_in<A>(
        alloc: Global,
        blank: Blank,
        allocator: A,
    ) -> Result<(Self, Share<L>), OOMError>
    where
        M: Made<Arc<V>, V, A>,
        requires name { blank.name ≡ L.name }
        requires parts { blank.parts ≡ L.parts }
        requires whole { L.parts ≡ 2 ^ 63 + 1 }
        ensures share { IfOk result (λ r. r.1 ≡ record { weight = 2 ^ 63; number = 0 }) }
    {
        // (what the checker needs to know of M)
        M::owners_mean_their_values();
        let (state, share) = LockedState::new(alloc, allocator, blank)?;
        Ok((
            CongeeArc {
                raw: Raw::new(alloc, state)?,
                of: PhantomData,
            },
            share,
        ))
    }

    /// A guard that has seen nothing. Looks at the numbers that are seated, in turn. If there is none, nothing has changed.
    pub fn pin<R: Wait>(&self, rt: &R) -> Result<OwnerGuard<'_, L, V, M>, PinError>
        ensures { IfOk result (λ guard. (guard.table ≡ self.now) × (guard.seen ≡ [])) }
    {
        self.raw.pin(rt)
    }

    /// `pin` that waits while another thread is just being given a guard. `OOMError` if memory for its calls was missing:
    /// then nothing has changed.
    pub fn pin_waiting<R: Wait>(&self, rt: &R) -> Result<OwnerGuard<'_, L, V, M>, OOMError>
        ensures { IfOk result (λ guard. (guard.table ≡ self.now) × (guard.seen ≡ [])) }
    {
        self.raw.pin_waiting(rt)
    }

    /// Frees a caller's seat. A guard that is dropped instead keeps its seat until the map ends.
    pub fn unpin<R: Wait>(&self, rt: &R, guard: OwnerGuard<'_, L, V, M>)
        requires map { guard.table ≡ self.now }
    {
        guard.unpin(rt);
    }

    /// One more owner of the key's current value. `OOMError` if another owner is refused.
    pub fn get<R: Wait>(
        &self,
        rt: &R,
        guard: &mut OwnerGuard<'_, L, V, M>,
        key: K,
    ) -> Result<Option<Arc<V>>, OOMError>
        requires map { guard.old.table ≡ self.now }
        ensures map { guard.new.table ≡ guard.old.table }
        ensures made { IfOk result (λ owner. MadeCall never_same guard.old
            (returned (get (K.number key)) (old_value (in_some arc_value owner))) guard.new) }
        ensures refused { OnErr result (SeenMore never_same guard.old guard.new) }
        ensures unchanged { OnErr result (guard.new ≡ guard.old) }
    {
        self.get_gated(rt, guard, key, &mut NoGate)
    }

    /// `get` with a gate, which is called after each event but the last of the call.
    pub fn get_gated<R: Wait, G: Gate>(
        &self,
        rt: &R,
        guard: &mut OwnerGuard<'_, L, V, M>,
        key: K,
        gate: &mut G,
    ) -> Result<Option<Arc<V>>, OOMError>
        requires map { guard.old.table ≡ self.now }
        ensures map { guard.new.table ≡ guard.old.table }
        ensures made { IfOk result (λ owner. MadeCall never_same guard.old
            (returned (get (K.number key)) (old_value (in_some arc_value owner))) guard.new) }
        ensures refused { OnErr result (SeenMore never_same guard.old guard.new) }
        ensures unchanged { OnErr result (guard.new ≡ guard.old) }
    {
        self.raw.get(rt, guard, key.into_u64(), gate)
    }

    /// Stores an owner at the key, and returns the previous one. `OOMError` if memory or room for one more owner
    /// was missing: then the call changed nothing, and the handed owner is dropped.
    pub fn insert<R: Wait>(
        &self,
        rt: &R,
        guard: &mut OwnerGuard<'_, L, V, M>,
        key: K,
        owner: Arc<V>,
    ) -> Result<Option<Arc<V>>, OOMError>
        requires map { guard.old.table ≡ self.now }
        ensures map { guard.new.table ≡ guard.old.table }
        ensures made { IfOk result (λ before. MadeCall never_same guard.old
            (returned (insert (K.number key) (arc_value owner)) (old_value (in_some arc_value before))) guard.new) }
        ensures refused { OnErr result (SeenMore never_same guard.old guard.new) }
        ensures unchanged { OnErr result (guard.new ≡ guard.old) }
    {
        self.insert_gated(rt, guard, key, owner, &mut NoGate)
    }

    /// `insert` with a gate, which is called after each event but the last.
    pub fn insert_gated<R: Wait, G: Gate>(
        &self,
        rt: &R,
        guard: &mut OwnerGuard<'_, L, V, M>,
        key: K,
        owner: Arc<V>,
        gate: &mut G,
    ) -> Result<Option<Arc<V>>, OOMError>
        requires map { guard.old.table ≡ self.now }
        ensures map { guard.new.table ≡ guard.old.table }
        ensures made { IfOk result (λ before. MadeCall never_same guard.old
            (returned (insert (K.number key) (arc_value owner)) (old_value (in_some arc_value before))) guard.new) }
        ensures refused { OnErr result (SeenMore never_same guard.old guard.new) }
        ensures unchanged { OnErr result (guard.new ≡ guard.old) }
    {
        self.raw
            .insert(rt, guard, key.into_u64(), owner, &mut OwnPurse, gate)
    }

    /// `insert`, which adds 1 to the share exactly if the key was absent.
    pub fn insert_counted<R: Wait>(
        &self,
        rt: &R,
        guard: &mut OwnerGuard<'_, L, V, M>,
        share: &mut Share<L>,
        key: K,
        owner: Arc<V>,
    ) -> Result<Option<Arc<V>>, OOMError>
        requires map { guard.old.table ≡ self.now }
        ensures map { guard.new.table ≡ guard.old.table }
        ensures counted { share.new ≡ inserted result share.old }
        ensures made { IfOk result (λ before. MadeCall never_same guard.old
            (returned (insert (K.number key) (arc_value owner)) (old_value (in_some arc_value before))) guard.new) }
        ensures refused { OnErr result (SeenMore never_same guard.old guard.new) }
        ensures unchanged { OnErr result (guard.new ≡ guard.old) }
    {
        self.raw
            .insert(rt, guard, key.into_u64(), owner, share, &mut NoGate)
    }

    /// Removes the key, and returns the previous owner. Tries again while memory is missing.
    pub fn remove<R: Wait>(
        &self,
        rt: &R,
        guard: &mut OwnerGuard<'_, L, V, M>,
        key: K,
    ) -> Option<Arc<V>>
        requires map { guard.old.table ≡ self.now }
        ensures map { guard.new.table ≡ guard.old.table }
        ensures made { MadeCall never_same guard.old
            (returned (remove (K.number key)) (old_value (in_some arc_value result))) guard.new }
    {
        self.remove_gated(rt, guard, key, &mut NoGate)
    }

    /// `remove` with a gate, which is called after each event but the last.
    pub fn remove_gated<R: Wait, G: Gate>(
        &self,
        rt: &R,
        guard: &mut OwnerGuard<'_, L, V, M>,
        key: K,
        gate: &mut G,
    ) -> Option<Arc<V>>
        requires map { guard.old.table ≡ self.now }
        ensures map { guard.new.table ≡ guard.old.table }
        ensures made { MadeCall never_same guard.old
            (returned (remove (K.number key)) (old_value (in_some arc_value result))) guard.new }
    {
        self.raw
            .remove_always(rt, guard, key.into_u64(), &mut OwnPurse, gate)
    }

    /// `remove`, which subtracts 1 from the share exactly if an owner was stored at the key.
    pub fn remove_counted<R: Wait>(
        &self,
        rt: &R,
        guard: &mut OwnerGuard<'_, L, V, M>,
        share: &mut Share<L>,
        key: K,
    ) -> Option<Arc<V>>
        requires map { guard.old.table ≡ self.now }
        ensures map { guard.new.table ≡ guard.old.table }
        ensures counted { share.new ≡ removed result share.old }
        ensures made { MadeCall never_same guard.old
            (returned (remove (K.number key)) (old_value (in_some arc_value result))) guard.new }
    {
        self.raw
            .remove_always(rt, guard, key.into_u64(), share, &mut NoGate)
    }

    /// If the key is present, calls the closure with one more owner of the current value, and stores its answer. For
    /// `None` it removes the key. Returns the previous owner. The closure may be called again, and the last call
    /// counts. It may have been called before an `OOMError`, after which the call changed nothing.
    pub fn compute_if_present<R: Wait, F: FnMut(Arc<V>) -> Option<Arc<V>>>(
        &self,
        rt: &R,
        guard: &mut OwnerGuard<'_, L, V, M>,
        key: K,
        f: &mut F,
    ) -> Result<Option<Arc<V>>, OOMError>
        requires map { guard.old.table ≡ self.now }
        requires callable { F.IsAlwaysCallable f.old }
        ensures callable { F.IsAlwaysCallable f.new }
        ensures reached { Reaches F.step f.old f.new }
        ensures map { guard.new.table ≡ guard.old.table }
        ensures made { IfOk result (λ before.
            ReturnsComputed arc_value F.step f.new guard.old (K.number key) before guard.new) }
        ensures refused { OnErr result (SeenMore never_same guard.old guard.new) }
        ensures unchanged { OnErr result (guard.new ≡ guard.old) }
    {
        let both = self.raw.compute_if_present(rt, guard, key.into_u64(), f)?;
        Ok(previous_of(both))
    }

    /// The number of pairs at one moment, exactly if the share has the whole weight: then the share is used up.
    /// Otherwise returns the share. By the contract of `LockedState::settle`, the number is that of the state under the
    /// lock.
    pub fn settle<R: Wait>(&self, rt: &R, share: Share<L>) -> Result<u128, Share<L>>
        ensures { MatchResult result (λ _. share.weight ≡ 2 ^ 63)
            (λ s. (share.weight ≢ 2 ^ 63) × (s ≡ share)) }
    {
        self.raw.settle(rt, share)
    }

    /// `settle` as an entry of the history, exactly if the share has the whole weight. Otherwise returns the share, and
    /// it is no entry.
    pub fn settle_recorded<R: Wait>(
        &self,
        rt: &R,
        guard: &mut OwnerGuard<'_, L, V, M>,
        share: Share<L>,
    ) -> Result<u128, Share<L>>
        requires map { guard.old.table ≡ self.now }
        ensures map { guard.new.table ≡ guard.old.table }
        ensures settled { MatchResult result
            (λ n. (share.weight ≡ 2 ^ 63)
            × MadeCall never_same guard.old (returned count (counted n)) guard.new)
            (λ s. (share.weight ≢ 2 ^ 63) × (s ≡ share) × (guard.new ≡ guard.old)) }
    {
        self.raw.settle_recorded(rt, guard, share)
    }

    /// The keys at one moment, ascending, each read back from its number. No owner is counted for it. `OOMError` if
    /// there is no memory for the list.
    pub fn keys<R: Wait>(&self, rt: &R, alloc: Global) -> Result<Vec<K>, OOMError>
        ensures ascending { IfOk result (λ keys. (m : Pairs V) × IsMap m
            × (keys.items ≡ map K.of_number (map (λ pair. pair.0) m))) }
    {
        self.raw.keys(rt, alloc)
    }

    /// The sums over the nodes that are reachable at one moment, by level and form, and the number of pairs.
    pub fn stats<R: Wait>(&self, rt: &R) -> Result<NodeStats, OOMError> {
        self.raw.stats(rt)
    }

    /// The number of pairs at one moment.
    pub fn value_count<R: Wait>(&self, rt: &R) -> u128 {
        self.raw.pair_count(rt)
    }

    /// Whether the map has no pair at one moment.
    pub fn is_empty<R: Wait>(&self, rt: &R) -> bool {
        self.raw.pair_count(rt) == 0
    }
}

/// Both guards, of one map, whose callers are two, have then seen one legal history, which begins with what each had seen.
pub fn meet<L: Ledger, V: Send + Sync + Drop + 'static, M: Owners<V>>(
    a: &mut OwnerGuard<'_, L, V, M>,
    b: &mut OwnerGuard<'_, L, V, M>,
)
    requires map { b.old.table ≡ a.old.table }
    ensures first { SeenMore never_same a.old a.new }
    ensures second { SeenMore never_same b.old b.new }
    ensures one { a.new.seen ≡ b.new.seen }
    ensures differ { a.old.caller ≢ b.old.caller }
{
    // (what the checker needs to know of M)
    M::owners_mean_their_values();
    a.meet(b);
}
