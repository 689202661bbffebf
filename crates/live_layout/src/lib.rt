//! How a node of a tree lies in words of 64 bits, and how it is searched and changed there, one word at a time.
//!
//! Word 0 is the head: the node's form and its prefix. Behind it the children lie in one of two layouts.
//!
//! - A *list* has room for a few children. Their keys are bytes in the order of entry, behind a byte that counts them. A
//!   search reads a word of eight such bytes at a time.
//! - *Places* have a word for each byte, and a bit that tells whether there is a child.
//!
//! A node of each form of `node_table` has one of these layouts. `change`, `fill`, `form` and `search` are given the form.
//! `nearest` and `page` have the children in the order of their bytes, upwards or downwards. In a list these are in the order
//! of entry. So who wants the next one looks at all, and takes the nearest.
//!
//! Who searches reads words that others may write meanwhile. So a search is safe on any words, and its answer is right of
//! all words that agree with what was read. A reader knows a node's form from its parent, and checks it by the head. Who
//! changes a node has locked it, or made it.
//!
//! The functions know no memory: they read and write by the traits in `words`.
//!
//! Tested in `test_live_words` and `test_live_faces`.
#![tactic(auto)]

pub mod by_key;
pub mod change;
pub mod fill;
pub mod form;
pub mod head;
pub mod lanes;
pub mod list;
pub mod moves;
pub mod nearest;
pub mod page;
pub mod places;
pub mod search;
pub mod words;
