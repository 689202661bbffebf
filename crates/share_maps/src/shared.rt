//! The form whose calls are made of the protocol's events: each event takes one hold of the lock, and other threads'
//! events come between any two.
//!
//! A map and its shares belong to one ledger `L`, so code that uses them is in functions over `L: Ledger`.

use node_table::allocator::DefaultAllocator;
pub use share_faces::PinError;
use share_faces::{congee_arc, typed_congee, u64_congee};
pub use share_holds::gate::{Gate, NoGate};
use share_machine::events::Events;
pub use share_state::share::Share;
use spec_map::traits::NoDrain;
pub use spec_olc::types::{Kind, Report};
use std::sync::Arc;

/// Two callers of one map of numbers meet.
pub use share_faces::typed_congee::meet;

/// Two callers of one map of owners meet.
pub use share_faces::congee_arc::meet as meet_owners;

/// An ordered map from numbers to values that numbers represent, which threads share.
pub type U64Congee<L, V, A = DefaultAllocator> = u64_congee::U64Congee<L, V, Events<u64, A>>;

/// An ordered map from keys to values, both of types that numbers represent, which threads share.
pub type Congee<L, K, V, A = DefaultAllocator, D = NoDrain> = typed_congee::Congee<
    L,
    K,
    V,
    Events<u64, A>,
    D,
>;

/// An ordered map from keys to owners of shared values, which threads share.
pub type CongeeArc<L, K, V, A = DefaultAllocator> = congee_arc::CongeeArc<
    L,
    K,
    V,
    Events<Arc<V>, A>,
>;

/// A caller of a map of numbers.
pub type Guard<'a, L, A = DefaultAllocator> = typed_congee::Guard<'a, L, Events<u64, A>>;

/// A note of what a caller of a map of numbers has seen.
pub type Note<L, A = DefaultAllocator> = typed_congee::Note<L, Events<u64, A>>;

/// A caller of a map of owners.
pub type OwnerGuard<'a, L, V, A = DefaultAllocator> = congee_arc::OwnerGuard<
    'a,
    L,
    V,
    Events<Arc<V>, A>,
>;
