//! Nodes that threads lock one by one and read without a lock, in the words of a book. The law of a map whose nodes they are.
//!
//! A node is a range of words: its version word, and then its content. A caller above states a law of all nodes and of
//! what its own seats know, and shows that each step keeps it. That takes no lock and no pin: who remembers an older
//! version word finds another one, and a node's words never leave the book.
//!
//! A seat knows of nodes
//!
//! - where some lie, for good
//! - words that it took, with what it has read since. That is current while the word is there
//! - nodes that it holds, with what it has written there
//! - its *room*: words for new nodes, which no other seat writes
//!
//! The searches and changes of `live_layout` reach a node's words by the types in `rows`.
//!
//! - `SharedWords`: a node is read without a lock. Its version word was taken before, and is checked afterwards
//! - `LockedWords`: the seat has locked the node
//! - `NewWords`: the first words of the seat's room become a node
//!
//! The law of the map (`map_law`) says what its nodes are at any time, by the history of all calls, and what each seat knows.
//!
//! - The law is over heights and the upper bytes of keys. It isn't that of the protocol's machine
//! - A node that a larger one has replaced may be used again, elsewhere in the map
//! - A node's key and its form are for good. Its height and the bytes above it are what its own head says
//! - Whoever finds a node's version word free knows that its head is current there
//!
//! Tested in `test_live_words` and `test_live_calls`.
#![tactic(auto)]

pub mod heap;
pub mod law;
pub mod map_law;
pub mod node;
pub mod plays;
pub mod room;
pub mod roots;
pub mod rows;
