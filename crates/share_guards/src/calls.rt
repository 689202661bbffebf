//! The point calls, by number and payload. Each returns what the map returns at the end of a legal history that begins
//! with what the guard had seen.
//!
//! Tested in `test_share_guards` and `share_maps/guards`.

ghost use Rattle.std.specs.Prelude.{◌≡◌, Some, IfOk, IfSome, OnErr};
ghost use Rattle.spec_map.specs.Call.{compare_exchange, exchanged, get, insert, old_value, remove};
ghost use Rattle.spec_olc.specs.Meaning.{both_of, exchanged_of, in_some};
ghost use Rattle.share_backend.specs.Changing.{IsOld, IsComputed, IsExchangeReply, if_present};
ghost use Rattle.share_state.specs.Booking.{BooksInsert};
ghost use Rattle.share_rule.specs.Known.{MadeCall, SeenMore};
ghost use Rattle.share_holds.specs.Closures.{Reaches};
ghost use Rattle.share_guards.specs.Operations.{WasLastCalled, computed_with, inserted_with, returned};

use crate::raw::{Guard, Raw};
use share_backend::lent::Lent;
use share_holds::asks::{Always, IfPresent, Nobody};
use share_holds::gate::{Gate, NoGate};
use share_state::purse::{OwnPurse, Purse};
use spec_map::error::OOMError;
use spec_olc::types::{Op, Reply};
use std::sync::Wait;
use std::sync::ledger::Ledger;

fn old_in<P: Drop>(reply: Reply<P>) -> Option<P>
    requires { IsOld reply }
    ensures { reply ≡ Reply.Old result }
{
    match reply {
        Reply::Old(before) => before,
        Reply::Computed(_) | Reply::Exchanged(_) => unreachable!(),
    }
}

fn computed_in<P: Drop>(reply: Reply<P>) -> Option<(P, Option<P>)>
    requires { IsComputed reply }
    ensures { reply ≡ Reply.Computed result }
{
    match reply {
        Reply::Computed(both) => both,
        Reply::Old(_) | Reply::Exchanged(_) => unreachable!(),
    }
}

fn exchanged_in<P: Drop>(reply: Reply<P>) -> Result<Option<P>, Option<P>>
    requires { IsExchangeReply reply }
    ensures { reply ≡ Reply.Exchanged result }
{
    match reply {
        Reply::Exchanged(current) => current,
        Reply::Old(_) | Reply::Computed(_) => unreachable!(),
    }
}

impl<L: Ledger, P: Drop, T, M: Lent<P, T>> Raw<L, P, T, M> {
    pub fn get<R: Wait, G: Gate>(
        &self,
        rt: &R,
        guard: &mut Guard<'_, L, P, T, M>,
        key: u64,
        gate: &mut G,
    ) -> Result<Option<P>, OOMError>
        requires map { guard.old.table ≡ self.now }
        ensures made { IfOk result (λ value. MadeCall M.same guard.old
            (returned (get key) (old_value (in_some M.meaning value))) guard.new) }
        ensures refused { OnErr result (SeenMore M.same guard.old guard.new) }
        ensures unchanged { OnErr result (guard.new ≡ guard.old) }
    {
        let op = Op::Get(key);
        let reply = self.call(rt, guard, &op, &mut OwnPurse, Nobody, &mut (), gate)?;
        Ok(old_in(reply))
    }

    pub fn get_always<R: Wait, G: Gate>(
        &self,
        rt: &R,
        guard: &mut Guard<'_, L, P, T, M>,
        key: u64,
        gate: &mut G,
    ) -> Option<P>
        requires map { guard.old.table ≡ self.now }
        ensures made { MadeCall M.same guard.old
            (returned (get key) (old_value (in_some M.meaning result))) guard.new }
    {
        let op = Op::Get(key);
        let reply = self.call_always(rt, guard, &op, &mut OwnPurse, Nobody, &mut (), gate);
        old_in(reply)
    }

    pub fn insert<R: Wait, B: Purse<L>, G: Gate>(
        &self,
        rt: &R,
        guard: &mut Guard<'_, L, P, T, M>,
        key: u64,
        payload: P,
        purse: &mut B,
        gate: &mut G,
    ) -> Result<Option<P>, OOMError>
        requires map { guard.old.table ≡ self.now }
        ensures booked { BooksInsert B.after result purse.old purse.new }
        ensures made { IfOk result (λ before. MadeCall M.same guard.old
            (returned (insert key (M.meaning payload))
            (old_value (in_some M.meaning before))) guard.new) }
        ensures refused { OnErr result (SeenMore M.same guard.old guard.new) }
        ensures unchanged { OnErr result (guard.new ≡ guard.old) }
    {
        let op = Op::Insert(key, payload);
        let reply = self.call(rt, guard, &op, purse, Nobody, &mut (), gate)?;
        Ok(old_in(reply))
    }

    pub fn remove_always<R: Wait, B: Purse<L>, G: Gate>(
        &self,
        rt: &R,
        guard: &mut Guard<'_, L, P, T, M>,
        key: u64,
        purse: &mut B,
        gate: &mut G,
    ) -> Option<P>
        requires map { guard.old.table ≡ self.now }
        ensures booked { purse.new ≡ B.after (if_present result) purse.old }
        ensures made { MadeCall M.same guard.old
            (returned (remove key) (old_value (in_some M.meaning result))) guard.new }
    {
        let op = Op::Remove(key);
        let reply = self.call_always(rt, guard, &op, purse, Nobody, &mut (), gate);
        old_in(reply)
    }

    pub fn compare_exchange_always<R: Wait>(
        &self,
        rt: &R,
        guard: &mut Guard<'_, L, P, T, M>,
        key: u64,
        old: P,
        new: Option<P>,
    ) -> Result<Option<P>, Option<P>>
        requires map { guard.old.table ≡ self.now }
        ensures made { MadeCall M.same guard.old
            (returned (compare_exchange key (M.meaning old) (in_some M.meaning new))
            (exchanged (exchanged_of M.meaning result))) guard.new }
    {
        let op = Op::CompareExchange(key, old, new);
        let reply = self.call_always(rt, guard, &op, &mut OwnPurse, Nobody, &mut (), &mut NoGate);
        exchanged_in(reply)
    }

    /// The closure's last call is the one in the guard's history.
    pub fn compute_if_present<R: Wait, F: FnMut(P) -> Option<P>>(
        &self,
        rt: &R,
        guard: &mut Guard<'_, L, P, T, M>,
        key: u64,
        f: &mut F,
    ) -> Result<Option<(P, Option<P>)>, OOMError>
        requires map { guard.old.table ≡ self.now }
        requires callable { F.IsAlwaysCallable f.old }
        ensures callable { F.IsAlwaysCallable f.new }
        ensures reached { Reaches F.step f.old f.new }
        ensures made { IfOk result (λ both. MadeCall M.same guard.old
            (computed_with key (in_some (both_of M.meaning) both)) guard.new) }
        ensures asked { IfOk result (λ both. IfSome both (λ pair.
            WasLastCalled F.step f.new M.meaning (in_some M.meaning)
            (M.meaning pair.0) (in_some M.meaning pair.1))) }
        ensures refused { OnErr result (SeenMore M.same guard.old guard.new) }
        ensures unchanged { OnErr result (guard.new ≡ guard.old) }
    {
        let op = Op::ComputeIfPresent(key);
        let reply = self.call(rt, guard, &op, &mut OwnPurse, IfPresent, f, &mut NoGate)?;
        Ok(computed_in(reply))
    }

    /// Calls the closure as `compute_if_present` does. Where memory is missing, it pauses and tries again.
    pub fn compute_if_present_always<R: Wait, F: FnMut(P) -> Option<P>>(
        &self,
        rt: &R,
        guard: &mut Guard<'_, L, P, T, M>,
        key: u64,
        f: &mut F,
    ) -> Option<(P, Option<P>)>
        requires map { guard.old.table ≡ self.now }
        requires callable { F.IsAlwaysCallable f.old }
        ensures callable { F.IsAlwaysCallable f.new }
        ensures reached { Reaches F.step f.old f.new }
        ensures made { MadeCall M.same guard.old
            (computed_with key (in_some (both_of M.meaning) result)) guard.new }
        ensures asked { IfSome result (λ pair.
            WasLastCalled F.step f.new M.meaning (in_some M.meaning)
            (M.meaning pair.0) (in_some M.meaning pair.1)) }
    {
        let op = Op::ComputeIfPresent(key);
        let reply = self.call_always(rt, guard, &op, &mut OwnPurse, IfPresent, f, &mut NoGate);
        computed_in(reply)
    }

    /// The closure's last call is the one in the guard's history. `otherwise` would be stored if the closure returned no
    /// value, which it can't.
    pub fn compute_or_insert<R: Wait, F: FnMut(Option<P>) -> P>(
        &self,
        rt: &R,
        guard: &mut Guard<'_, L, P, T, M>,
        key: u64,
        otherwise: P,
        f: &mut F,
    ) -> Result<Option<P>, OOMError>
        requires map { guard.old.table ≡ self.now }
        requires callable { F.IsAlwaysCallable f.old }
        ensures callable { F.IsAlwaysCallable f.new }
        ensures reached { Reaches F.step f.old f.new }
        ensures made { IfOk result (λ old. (new : T)
            × MadeCall M.same guard.old (inserted_with key (in_some M.meaning old) new) guard.new
            × WasLastCalled F.step f.new (in_some M.meaning) M.meaning
            (in_some M.meaning old) new) }
        ensures refused { OnErr result (SeenMore M.same guard.old guard.new) }
        ensures unchanged { OnErr result (guard.new ≡ guard.old) }
    {
        let op = Op::ComputeOrInsert(key, otherwise);
        let reply = self.call(rt, guard, &op, &mut OwnPurse, Always, f, &mut NoGate)?;
        Ok(old_in(reply))
    }
}
