//! Words that threads share, each of 8 bytes, wherever ordinary structs put them: a `Vec<Word>` is as good as a field.
//!
//! One rule is about all words of a *book* and about what each *seat* knows. A seat is a thread's place at the book. It
//! takes no bytes, and only its own steps change what it knows. A step reads or changes one word, and keeps the rule.
//! By the same step more words may join the book, each 0.
//!
//! None of the library's crates gives all of that. `logbook` also has words anywhere under one rule, but what its threads
//! know is a prefix of a log that anyone may have, so that nothing is known to one thread alone. The words of an
//! `atomic_table` lie in one block, whose size never changes. A cell of `atomic_blocks::rows` takes 16 bytes, and no
//! memory comes back before all rows are closed.
//!
//! `unsafe` and proofs by hand stay in here: a crate above writes safe code, and shows facts of lists.
//!
//! Tested in `test_live_words`.
#![tactic(auto)]

pub mod seat;
pub mod word;
