//! Worked rows of lock words.

use congee_olc::lock::Word64;

// The words of a free node that is locked, then unlocked, and one that is locked, then marked obsolete.
fn words_after(free: u64) -> Option<[u64; 3]> {
    let word = Word64::from_number(free);
    if !word.is_free() {
        return None;
    }
    let locked = word.upgraded(word)?;
    if !locked.is_locked() || locked.is_obsolete() {
        return None;
    }
    let (unlocked, obsolete) = (locked.unlocked(), locked.obsoleted());
    Some([locked.number(), unlocked.number(), obsolete.number()])
}

const ROWS: [(u64, [u64; 3]); 2] = [
    (0, [2, 4, 3]),
    (
        18446744073709551608,
        [
            18446744073709551610,
            18446744073709551612,
            18446744073709551611,
        ],
    ),
];

#[test]
fn words_rise_by_two_and_by_one(rt: HostRuntime) {
    for (free, words) in ROWS {
        assert!(rt; words_after(free) == Some(words));
    }
}

fn is_stuck(number: u64) -> bool {
    let last = Word64::from_number(number);
    last.upgraded(last).is_none() && last.matches(last) && last.is_free()
}

#[test]
fn the_last_version_is_never_upgraded(rt: HostRuntime) {
    assert!(rt; is_stuck(18446744073709551612));
}
