//! What a call leaves to be done: nodes for others, and paths to tidy.
ghost use Rattle.std.specs.Prelude.{◌≡◌, IfSome};
ghost use Rattle.live_updates.specs.Refusals.{Refused};

use crate::cleanup_queue;
use crate::free_list::{FreeList, add_to};
use crate::pool::{FORMS, Pool, STRIPES};
use counted_slot::{Counted, FREE};
use live_growth::free_nodes::Forms;
use live_growth::map::{Guard, Refusal};
use live_layout::form::{form_below, place_of};
use live_updates::absent::found_none;
use live_updates::tidy::tidy;
use node_base::base_node::NodeType;
use std::hint::spin_loop;

/// How many nodes a removal takes out at most: one of each height below the root's.
const HEIGHTS: usize = 7;

/// How many paths of earlier calls a call tidies at most.
const EARLIER: usize = 2;

/// How often a free list is looked for, where other threads are at some.
const LOOKS: u32 = 30;

// The stripe whose free list a node goes to first: its name, mixed.
fn stripe_of(name: u64) -> usize {
    (name.wrapping_mul(0x9e37_79b9_7f4a_7c15) >> 62) as usize
}

// Which key's path the guard has still to tidy.
fn owe(guard: &mut Guard, key: Option<u64>)
    ensures { guard.new ≡ guard.old }
{
    guard.room.cleanup_due = key;
}

// The guard's room is in order: nothing has changed since.
fn is_in_order(guard: &mut Guard)
    ensures { guard.new ≡ guard.old }
{
    guard.room.is_changed = false;
    guard.room.used = Forms::none();
}

impl Pool {
    /// To be called before a call that may remove.
    #[inline(always)]
    pub fn begin(&self, guard: &mut Guard)
        ensures { guard.new ≡ guard.old }
    {
        if guard.room.cleanup_due.is_some() {
            self.defer(guard);
        }
    }

    /// To be called before a call that may insert: a further node goes to the free list of its form.
    #[inline(always)]
    pub fn ready(&self, guard: &mut Guard)
        requires map { guard.old.book ≡ self.now }
        ensures { guard.new ≡ guard.old }
    {
        if guard.room.spare.more != 0 {
            self.leave(guard);
        }
    }

    /// To be called after a call that may insert or remove. The path that the guard has still to tidy is tried. If the call made
    /// nodes or took some out, so are up to two that others have deferred. Then one node too many goes to a free list of its form,
    /// and of those forms that the call has used and the guard has none of it gets one.
    #[inline(always)]
    pub fn settle(&self, guard: &mut Guard)
        requires map { guard.old.book ≡ self.now }
        ensures { guard.new ≡ guard.old }
    {
        if guard.room.is_changed || guard.room.cleanup_due.is_some() {
            self.put_in_order(guard);
        }
    }

    // What is left to be done after a call, as `settle` has it, where there may be something.
    #[inline(never)]
    fn put_in_order(&self, guard: &mut Guard)
        requires map { guard.old.book ≡ self.now }
        ensures { guard.new ≡ guard.old }
    {
        if let Some(key) = guard.room.cleanup_due {
            let _ = self.tidy_path(guard, key);
        }
        if !guard.room.is_changed {
            return;
        }
        let used = guard.room.used;
        self.tidy_earlier(guard);
        self.leave(guard);
        self.supply(used, &mut guard.room, &mut guard.seat);
        is_in_order(guard);
    }

    /// To be called after an insertion that was refused, with why. It may have made a leaf before. Why it was refused then: it is
    /// out of memory where the key is found absent, and busy where the key is present, as a writer came in between.
    pub fn refuse(&self, guard: &mut Guard, key: u64, why: Refusal) -> Refusal
        requires map { guard.old.book ≡ self.now }
        ensures { Refused guard.old key result guard.new }
    {
        if guard.room.is_changed {
            let _ = self.tidy_path(guard, key);
        }
        self.settle(guard);
        if why == Refusal::OutOfMemory && found_none(&self.map, guard, key) {
            return Refusal::OutOfMemory;
        }
        Refusal::Busy
    }

    /// Nodes without children on the path of a key are taken out. Where a writer is busy there, the guard keeps the key, and tries
    /// again after its next call: `false`. The nodes are its own then, as a map at its limit has no others for it.
    pub fn tidy_path(&self, guard: &mut Guard, key: u64) -> bool
        requires map { guard.old.book ≡ self.now }
        ensures { guard.new ≡ guard.old }
    {
        if guard.room.cleanup_due != Some(key) {
            self.defer(guard);
        }
        for _ in 0..HEIGHTS {
            self.leave(guard);
            self.tidy_on(guard, key);
            if guard.room.cleanup_due.is_none() {
                return true;
            }
            if guard.room.spare.more == 0 {
                break;
            }
        }
        false
    }

    // Tidies the path of a key once. Where a writer is busy, or the guard has a further node already, the guard keeps the key.
    fn tidy_on(&self, guard: &mut Guard, key: u64)
        requires map { guard.old.book ≡ self.now }
        ensures { guard.new ≡ guard.old }
    {
        owe(guard, None);
        tidy(&self.map.nodes, key, &mut guard.room, &mut guard.seat);
    }

    // The guard's key goes to the first queue that no other thread is at. Else the guard keeps it.
    pub(crate) fn defer(&self, guard: &mut Guard)
        ensures { guard.new ≡ guard.old }
    {
        let Some(key) = guard.room.cleanup_due else {
            return;
        };
        for at in 0..self.cleanup_queues.len() {
            if cleanup_queue::add_to(&self.cleanup_queues[at], self.alloc, key) {
                owe(guard, None);
                return;
            }
        }
    }

    // A key that was deferred. The first queue is asked last, so that those behind it are emptied.
    fn earlier(&self) -> Option<u64> {
        let count = self.cleanup_queues.len();
        for at in 0..count {
            if let Some(key) = cleanup_queue::take_from(
                &self.cleanup_queues[count - 1 - at],
                self.alloc,
            ) {
                return Some(key);
            }
        }
        None
    }

    // The paths of some keys that were deferred are tidied, up to the first at which a writer is busy. The guard's own key is kept.
    fn tidy_earlier(&self, guard: &mut Guard)
        requires map { guard.old.book ≡ self.now }
        ensures { guard.new ≡ guard.old }
    {
        let own = guard.room.cleanup_due;
        owe(guard, None);
        for _ in 0..EARLIER {
            let Some(key) = self.earlier() else {
                break;
            };
            if !self.tidy_path(guard, key) {
                self.defer(guard);
                break;
            }
        }
        if own.is_some() {
            owe(guard, own);
        }
    }

    // The guard's further node goes to a free list of its form, if it has one.
    fn leave(&self, guard: &mut Guard)
        requires map { guard.old.book ≡ self.now }
        ensures { guard.new ≡ guard.old }
    {
        if guard.room.spare.more == 0 {
            return;
        }
        for _ in 0..LOOKS {
            self.leave_once(guard);
            if guard.room.spare.more == 0 {
                return;
            }
            spin_loop();
        }
    }

    // The guard's further node goes to the first free list of its form that no other thread is at. Each node begins at a stripe of
    // its own, so that a thread that stops at a free list keeps a part of them alone from the others.
    fn leave_once(&self, guard: &mut Guard)
        requires map { guard.old.book ≡ self.now }
        ensures { guard.new ≡ guard.old }
    {
        let first = stripe_of(guard.room.spare.more);
        for stripe in 0..STRIPES {
            self.leave_at(guard, first.wrapping_add(stripe) % STRIPES);
        }
    }

    // The guard's further node goes to the free list of its form in a stripe.
    fn leave_at(&self, guard: &mut Guard, stripe: usize)
        requires map { guard.old.book ≡ self.now }
        ensures { guard.new ≡ guard.old }
    {
        let name = guard.room.spare.more;
        if name == 0 {
            return;
        }
        let Some(slot) = self.free_list_at(form_below(name), stripe) else {
            return;
        };
        if add_to(slot, &self.map, self.alloc, name, &mut guard.seat) {
            guard.room.spare.more = 0;
        }
    }

    // The free list of a form in a stripe.
    pub(crate) fn free_list_at(&self, form: NodeType, stripe: usize) -> Option<&Counted<FreeList>>
        ensures { IfSome result (λ slot. slot.now ≡ self.now) }
    {
        let place = stripe
            .wrapping_mul(FORMS.len())
            .wrapping_add(place_of(form) as usize);
        self.free_lists.get(place)
    }

    // Whether a free list of this form has a node, or another thread is at it.
    pub(crate) fn may_have(&self, form: NodeType) -> bool {
        for stripe in 0..STRIPES {
            if let Some(slot) = self.free_list_at(form, stripe) {
                if slot.load() != FREE {
                    return true;
                }
            }
        }
        false
    }
}
