//! A map that threads share, and its guards.
//!
//! Tested in `test_share_guards` and `share_maps/guards`.

ghost use Rattle.std.specs.Prelude.{◌≡◌, ◌≢◌, [], None, IfOk, OnErr};
ghost use Rattle.spec_olc.specs.Calls.{IsPoint, outline_of};
ghost use Rattle.share_backend.specs.Changing.{IsReply, IsReplyTo, change_of};
ghost use Rattle.share_state.specs.Booking.{Books};
ghost use Rattle.share_rule.specs.Known.{SeenMore};
ghost use Rattle.share_rule.specs.inner.Steps.{IsIdle, at_of, seen_of};
ghost use Rattle.share_guards.specs.Made.{MadeWith};
ghost use Rattle.share_holds.specs.Closures.{Reaches};
ghost use Rattle.share_holds.specs.Replies.{reply_got};

use crate::pin::PinError;
use crate::reads::borrowed;
use share_backend::lent::Lent;
use share_holds::asks::Asks;
use share_holds::gate::Gate;
use share_holds::holds::{MapLock, MapSeat, number, unseat};
use share_holds::loops;
use share_rule::lock::Lock;
use share_state::purse::Purse;
use share_state::state::LockedState;
use spec_map::error::OOMError;
use spec_olc::types::{Op, Reply};
use std::alloc::Global;
use std::marker::Model;
use std::sync::Wait;
use std::sync::ledger::Ledger;

/// A map of payloads P, which represent values of T, that threads share. Under its lock are a map M of calls, and the
/// ledger in which its pairs are counted. Contracts see which map it is.
#[derive(Drop)]
pub struct Raw<L: Ledger, P, T, M: Lent<P, T>> {
    pub(crate) lock: MapLock<L, P, T, M>,
}

impl<L: Ledger, P, T, M: Lent<P, T>> Model for Raw<L, P, T, M> {
    ghost use Rattle.atomic_table.specs.Seated.{TableId, table_id_coded};

    ghost Value = { TableId };

    ghost coded = { table_id_coded };

    ghost view = { λ r. r.lock };
}

/// A caller of a shared map. Contracts see which map, the caller's number, and the history that it has seen.
#[derive(Drop)]
pub struct Guard<'a, L: Ledger, P, T, M: Lent<P, T>> {
    pub(crate) raw: &'a Raw<L, P, T, M>,
    pub(crate) seat: MapSeat<L, P, T, M>,
    pub(crate) id: u64,
}

impl<'a, L: Ledger, P, T, M: Lent<P, T>> Model for Guard<'a, L, P, T, M> {
    ghost use Rattle.std.specs.Prelude.{◌≡◌, Some};
    ghost use Rattle.share_backend.specs.declared.lent.CallStage.TheVariants.{Ready};
    ghost use Rattle.share_rule.specs.History.{IsLegalHistory};
    ghost use Rattle.share_rule.specs.Known.{Known};
    ghost use Rattle.share_rule.specs.inner.Steps.{IsIdle, at_of, known_of, seen_of};

    ghost Value = { Known T };

    ghost view = { λ g. known_of g.seat.table_id g.seat.me };

    ghost invariant = { λ g. (g.seat.table_id ≡ g.raw.now) × IsIdle g.seat.me
        × (at_of g.seat.me.0 ≡ Some (g.id, Ready)) × IsLegalHistory M.same (seen_of g.seat.me.0) };
}

impl<L: Ledger, P: Drop, T, M: Lent<P, T>> Raw<L, P, T, M> {
    /// A map with this under its lock, which is empty. `OOMError` if there is no memory for the lock.
    pub fn new(alloc: Global, state: LockedState<L, P, T, M>) -> Result<Self, OOMError>
        requires empty { M.content state.under [] }
    {
        Ok(Raw {
            lock: Lock::new(alloc, state)?,
        })
    }

    /// The state under the lock, once nobody shares the map. `None` if a seat was lost while it had the lock, which no
    /// function here does.
    pub fn into_state(self) -> Option<LockedState<L, P, T, M>> {
        let Raw { lock } = self;
        lock.into_inner()
    }

    /// A guard that has seen nothing.
    pub fn pin<R: Wait>(&self, rt: &R) -> Result<Guard<'_, L, P, T, M>, PinError>
        ensures { IfOk result (λ guard. (guard.table ≡ self.now) × (guard.seen ≡ [])) }
    {
        let Some(seat) = self.lock.seat() else {
            return Err(PinError::NoSeat);
        };
        match self.guard_by(rt, seat) {
            Ok(guard) => Ok(guard),
            Err(error) => Err(PinError::Oom(error)),
        }
    }

    /// A guard that has seen nothing. Waits while another thread is just being given a guard. `OOMError` if memory for
    /// its calls was missing.
    pub fn pin_waiting<R: Wait>(&self, rt: &R) -> Result<Guard<'_, L, P, T, M>, OOMError>
        ensures { IfOk result (λ guard. (guard.table ≡ self.now) × (guard.seen ≡ [])) }
    {
        let seat = borrowed(self, rt);
        self.guard_by(rt, seat)
    }

    // A guard with this seat, for which a number is seated.
    fn guard_by<R: Wait>(
        &self,
        rt: &R,
        seat: MapSeat<L, P, T, M>,
    ) -> Result<Guard<'_, L, P, T, M>, OOMError>
        requires table { seat.table_id ≡ self.now }
        requires idle { IsIdle seat.me }
        requires unseen { seen_of seat.me.0 ≡ [] }
        requires numberless { at_of seat.me.0 ≡ None }
        ensures { IfOk result (λ guard. (guard.table ≡ self.now) × (guard.seen ≡ [])) }
    {
        let mut seat = seat;
        match number(&self.lock, rt, &mut seat) {
            Ok(id) => Ok(Guard {
                raw: self,
                seat,
                id,
            }),
            Err(error) => {
                self.lock.leave(seat);
                Err(error)
            }
        }
    }

    /// Makes a call, by as many attempts as it takes until it is decided or refused.
    pub fn call<R: Wait, B: Purse<L>, F, Q: Asks<P, F>, G: Gate>(
        &self,
        rt: &R,
        guard: &mut Guard<'_, L, P, T, M>,
        op: &Op<P>,
        purse: &mut B,
        how: Q,
        f: &mut F,
        gate: &mut G,
    ) -> Result<Reply<P>, OOMError>
        requires map { guard.old.table ≡ self.now }
        requires point { IsPoint (outline_of op.now) }
        requires callable { Q.can_ask f.old }
        ensures callable { Q.can_ask f.new }
        ensures reached { Reaches Q.step f.old f.new }
        ensures booked { Books B.after op.now (reply_got result) purse.old purse.new }
        ensures reply { IsReply op.now (reply_got result) }
        ensures made { IfOk result (λ reply.
            MadeWith M.same M.meaning Q.step f.new op.now reply guard.old guard.new) }
        ensures refused { OnErr result (SeenMore M.same guard.old guard.new) }
        ensures unchanged { OnErr result (guard.new ≡ guard.old) }
    {
        loops::call(
            &self.lock,
            rt,
            &mut guard.seat,
            guard.id,
            op,
            purse,
            how,
            f,
            gate,
        )
    }

    /// Makes a call that can't return a refusal: where memory is missing, it pauses and tries again.
    pub fn call_always<R: Wait, B: Purse<L>, F, Q: Asks<P, F>, G: Gate>(
        &self,
        rt: &R,
        guard: &mut Guard<'_, L, P, T, M>,
        op: &Op<P>,
        purse: &mut B,
        how: Q,
        f: &mut F,
        gate: &mut G,
    ) -> Reply<P>
        requires map { guard.old.table ≡ self.now }
        requires point { IsPoint (outline_of op.now) }
        requires callable { Q.can_ask f.old }
        ensures callable { Q.can_ask f.new }
        ensures reached { Reaches Q.step f.old f.new }
        ensures booked { purse.new ≡ B.after (change_of op.now result) purse.old }
        ensures reply { IsReplyTo op.now result }
        ensures made { MadeWith M.same M.meaning Q.step f.new op.now result guard.old guard.new }
    {
        loops::call_always(
            &self.lock,
            rt,
            &mut guard.seat,
            guard.id,
            op,
            purse,
            how,
            f,
            gate,
        )
    }
}

impl<'a, L: Ledger, P: Drop, T, M: Lent<P, T>> Guard<'a, L, P, T, M> {
    /// Frees the guard's number, and gives its seat back.
    pub fn unpin<R: Wait>(self, rt: &R) {
        let Guard { raw, mut seat, id } = self;
        unseat(&raw.lock, rt, &mut seat, id);
        raw.lock.leave(seat);
    }

    /// Both guards, whose callers are two, have then seen one history, which begins with what each had seen.
    pub fn meet(&mut self, other: &mut Guard<'_, L, P, T, M>)
        requires { other.old.table ≡ self.old.table }
        ensures first { SeenMore M.same self.old self.new }
        ensures second { SeenMore M.same other.old other.new }
        ensures one { self.new.seen ≡ other.new.seen }
        ensures differ { self.old.caller ≢ other.old.caller }
    {
        let raw = self.raw;
        raw.lock.meet(&mut self.seat, &mut other.seat);
    }
}
