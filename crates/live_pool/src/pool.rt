//! The map, and guards that have ended, whose rooms others get.
//!
//! Nobody waits. What is in a slot is taken out by one step, and put back by another. Who finds each list of guards taken looks
//! again a bounded number of times, and then goes without.
ghost use Rattle.std.specs.Prelude.{◌≡◌, ◌-◌, ◌^◌, [], IfOk, IfSome};
ghost use Rattle.live_pool.specs.Pools.{AreOf, AreFor};

use crate::cleanup_queue::CleanupQueue;
use crate::free_list::FreeList;
use crate::slot::swap;
use crate::succession::succeed;
use counted_slot::{Counted, FREE, Fits, MARKED, PRESENT};
use live_growth::free_nodes::FreeNodes;
use live_growth::map::{Congee, Guard};
use node_base::base_node::NodeType;
use std::alloc::{AllocError, Global};
use std::hint::spin_loop;
use std::marker::Model;

/// How many lists there may be.
const SLOTS: usize = 8;

/// The forms of nodes, by their places.
pub(crate) const FORMS: [NodeType; 4] = [
    NodeType::N4,
    NodeType::N16,
    NodeType::N48,
    NodeType::N256,
];

/// How many free lists each form has, and how many queues of deferred keys there are. Where a thread stops at one, others use the
/// next.
pub(crate) const STRIPES: usize = 4;

/// How often a list is looked for, where each is taken.
const LOOKS: u32 = 100;

/// A list of guards of one map.
#[derive(Drop)]
pub struct Left {
    guards: Vec<Guard>,
}

impl Fits for Left {
    ghost use Rattle.live_pool.specs.Pools.{AreOf};

    type Tag = Congee;

    ghost fits = { λ book left. AreOf book left.guards.items };
}

/// A map, guards of it that have ended, nodes that any guard may use again, and keys whose paths any guard may tidy.
#[derive(Drop)]
pub struct Pool {
    /// The map.
    pub map: Congee,
    slots: Vec<Counted<Left>>,
    pub(crate) free_lists: Vec<Counted<FreeList>>,
    pub(crate) cleanup_queues: Vec<Counted<CleanupQueue>>,
    pub(crate) alloc: Global,
}

impl Model for Pool {
    ghost use Rattle.word_book.specs.Book.{Book, book_coded};
    ghost use Rattle.live_pool.specs.Pools.{AreFor};

    ghost Value = { Book };

    ghost coded = { book_coded };

    ghost view = { λ p. p.map };

    ghost invariant = { λ p. AreFor p.map p.slots.items × AreFor p.map p.free_lists.items };
}

// So many slots for guards of this map, each with an empty list.
fn free_slots(alloc: Global, map: &Congee) -> Result<Vec<Counted<Left>>, AllocError>
    ensures { IfOk result (λ slots. AreFor map.now slots.items) }
{
    let mut slots = Vec::with_capacity(alloc, SLOTS)?;
    for _ in 0..SLOTS {
        let guards = Vec::new(alloc);
        slots.push(Counted::new(Left { guards }, map))?;
    }
    Ok(slots)
}

// The free lists of each form, without nodes: a stripe of one for each form after another.
fn no_free_lists(alloc: Global, map: &Congee) -> Result<Vec<Counted<FreeList>>, AllocError>
    ensures { IfOk result (λ free_lists. AreFor map.now free_lists.items) }
{
    let mut free_lists = Vec::with_capacity(alloc, FORMS.len() * STRIPES)?;
    for _ in 0..FORMS.len() * STRIPES {
        free_lists.push(Counted::new(FreeList::none(map, alloc), map))?;
    }
    Ok(free_lists)
}

// The queues, without keys.
fn no_keys(alloc: Global, map: &Congee) -> Result<Vec<Counted<CleanupQueue>>, AllocError> {
    let mut cleanup_queues = Vec::with_capacity(alloc, STRIPES)?;
    for _ in 0..STRIPES {
        cleanup_queues.push(Counted::new(CleanupQueue::none(alloc), map))?;
    }
    Ok(cleanup_queues)
}

impl Pool {
    /// An empty map without a limit: it is `u64::MAX`.
    pub fn new(alloc: Global) -> Result<Pool, AllocError>
        ensures limit { IfOk result (λ pool. pool.limit ≡ 2 ^ 64 - 1) }
    {
        Pool::with_limit(alloc, u64::MAX)
    }

    /// An empty map. It has a root of 2,104 bytes, the slots, the free lists and the queues. Its segments may take so many bytes
    /// together, as in `Congee::with_limit`. The first guard gets what is left of the first one.
    pub fn with_limit(alloc: Global, limit: u64) -> Result<Pool, AllocError>
        ensures limit { IfOk result (λ pool. pool.limit ≡ limit) }
    {
        let (map, guard) = Congee::with_guard(alloc, limit)?;
        let slots = free_slots(alloc, &map)?;
        let free_lists = no_free_lists(alloc, &map)?;
        let cleanup_queues = no_keys(alloc, &map)?;
        let pool = Pool {
            map,
            slots,
            free_lists,
            cleanup_queues,
            alloc,
        };
        pool.unpin(guard);
        Ok(pool)
    }

    /// A guard that has seen nothing. It has the room of one that was given back, if there is one.
    pub fn pin(&self) -> Guard
        ensures { (result.book ≡ self.now) × (result.seen ≡ []) }
    {
        let mut guard = self.map.pin();
        if let Some(from) = self.next() {
            succeed(from, &mut guard);
        }
        guard
    }

    /// Gives a guard back. If it has room for nodes, or nodes to use again, the next one gets that.
    pub fn unpin(&self, guard: Guard)
        requires map { guard.book ≡ self.now }
    {
        let mut guard = guard;
        self.defer(&mut guard);
        if guard.room.left == 0 && guard.room.spare == FreeNodes::none() {
            return;
        }
        if let Some((at, mut left)) = self.take() {
            drop(left.guards.push(guard));
            self.put_back(at, left);
            return;
        }
        let mut guards = Vec::new(self.alloc);
        if guards.push(guard).is_ok() {
            self.add_list(Left { guards });
        }
    }

    // A guard that was given back.
    fn next(&self) -> Option<Guard>
        ensures { IfSome result (λ guard. guard.book ≡ self.now) }
    {
        for _ in 0..LOOKS {
            if let Some((at, mut left)) = self.take() {
                let guard = left.guards.pop();
                self.put_back(at, left);
                return guard;
            }
            if !self.is_used() {
                return None;
            }
            spin_loop();
        }
        None
    }

    // Whether there is a list, in its slot or taken.
    fn is_used(&self) -> bool {
        for i in 0..self.slots.len() {
            if self.slots[i].load() != FREE {
                return true;
            }
        }
        false
    }

    // A list, and the slot that it was taken out of. The slot is marked, so that others leave it alone.
    fn take(&self) -> Option<(usize, Left)>
        ensures { IfSome result (λ taken. AreOf self.now taken.1.guards.items) }
    {
        for at in 0..self.slots.len() {
            let slot = &self.slots[at];
            if slot.load() == PRESENT {
                let guards = Vec::new(self.alloc);
                if let Ok(left) = swap(slot, PRESENT, Left { guards }, MARKED) {
                    return Some((at, left));
                }
            }
        }
        None
    }

    // Puts a list back into its slot. An empty one leaves the slot free.
    fn put_back(&self, at: usize, left: Left)
        requires { AreOf self.now left.guards.items }
    {
        let word = if left.guards.is_empty() {
            FREE
        } else {
            PRESENT
        };
        if let Some(slot) = self.slots.get(at) {
            drop(swap(slot, MARKED, left, word));
        }
    }

    // Puts a new list into a free slot. Where none is free it is dropped: nobody uses the words of its guards then.
    fn add_list(&self, left: Left)
        requires { AreOf self.now left.guards.items }
    {
        let mut left = left;
        for at in 0..self.slots.len() {
            let slot = &self.slots[at];
            if slot.load() == FREE {
                match swap(slot, FREE, left, PRESENT) {
                    Ok(_) => return,
                    Err(back) => left = back,
                }
            }
        }
    }
}
