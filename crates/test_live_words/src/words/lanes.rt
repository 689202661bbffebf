//! The lanes and heads of `live_layout`, by worked words.

use live_layout::head::{begins, form_of, head, prefix_len, with_form};
use live_layout::lanes::{find_lane, lane_of, with_lane};

// 0x11 is byte 0, and there are two of 0x33.
const WORD: u64 = 0x8877_3355_4433_2211;

#[test]
fn lanes_count_from_the_lowest(rt: HostRuntime) {
    assert!(rt; lane_of(WORD, 0) == 0x11 && lane_of(WORD, 7) == 0x88);
    assert!(rt; with_lane(WORD, 7, 0) == 0x0077_3355_4433_2211);
    assert!(rt; with_lane(WORD, 0, 0xff) == 0x8877_3355_4433_22ff);
}

#[test]
fn a_lane_is_found_between_two_places(rt: HostRuntime) {
    assert!(rt; find_lane(WORD, 0, 8, 0x88) == Some(7));
    assert!(rt; find_lane(WORD, 0, 7, 0x88) == None);
    assert!(rt; find_lane(WORD, 0, 8, 0x33) == Some(2));
    assert!(rt; find_lane(WORD, 3, 8, 0x33) == Some(5));
    assert!(rt; find_lane(WORD, 6, 6, 0x77) == None);
    assert!(rt; find_lane(0, 1, 5, 0) == Some(1));
}

#[test]
fn a_head_has_a_form_and_a_prefix(rt: HostRuntime) {
    let word = head(2, &[7, 0, 255]);
    assert!(rt; word == 0xff00_0713);
    assert!(rt; form_of(word) == 2 && prefix_len(word) == 3);
    assert!(rt; begins(word, &[7, 0, 255, 1, 2, 3, 4, 5]));
    assert!(rt; !begins(word, &[7, 0, 254, 1, 2, 3, 4, 5]));
    assert!(rt; with_form(word, 3) == 0xff00_071b);
    assert!(rt; begins(head(0, &[]), &[9; 8]));
}
