//! `congee run`: what a line parses as, its reply's text, and the run over any reader and writer, line by line.
//!
//! Tested in `test_serve` and `tools/dev/try-commands`.
#![tactic(auto)]

pub mod command;
pub mod laws;
pub mod reply;
pub mod run;
pub mod session;
