//! A word of the live map takes its 8 bytes, and what stands for a proof takes none.

use live_reads::path::{Cell, Seat};
use std::mem::size_of;
use word_book::seat::Pens;

#[test]
fn a_word_has_eight_bytes_and_a_seat_none(rt: HostRuntime) {
    assert!(rt; size_of::<Cell>() == 8);
    assert!(rt; size_of::<Seat>() == 0);
    assert!(rt; size_of::<Pens>() == 0);
}
