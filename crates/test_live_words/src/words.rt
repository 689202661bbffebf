//! Words, by hand values.
//!
//! - `lanes`: the bytes in a word, and heads of nodes
//! - `segments`: how many words a segment has, and which of them a limit is for
//! - `sizes`: what a word, a seat and the rights to make words take

mod lanes;
mod segments;
mod sizes;
