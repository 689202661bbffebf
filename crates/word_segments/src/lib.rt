//! Words by their keys: a directory of segments that grows without a bound, and that threads read without a lock.
//!
//! A segment is a vector of words by keys that follow one another. The first 32 have 512 words each, the next 32 twice as many, and
//! so on up to 65,536. So a small book takes little memory, also where 64 callers have a segment each, and of a large one each caller
//! has at most 512 KiB that nothing uses yet. A segment comes in once, and goes with the directory.
//!
//! Each segment has 65,536 keys, also where it has fewer words. So the high bits of a key are its segment, and the low bits its place
//! there. A key without a word is found nowhere.
//!
//! Tested in `test_live_words`.
#![tactic(auto)]

pub mod place;
pub mod segments;
