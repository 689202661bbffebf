//! What the handles of the C library have in common. A handle is a struct of a pointer and an allocator that owns what a box owns,
//! so that C may hold its address.
//!
//! Here are the parts of a box, what a handle owns (`specs`), and the proofs of functions that move such a pointer from one struct to
//! another (`Moves`), or lend what is on the heap (`Lends`), over any struct.
//!
//! Tested in `tools/c-library`, by the handles of `congee_c`, `congee_shared_c` and `congee_live_c`.
#![tactic(auto)]

pub mod parts;
