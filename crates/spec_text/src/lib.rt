//! The texts of the two programs: lines, numbers and values, the commands of `congee run` and their answers, the entries
//! of a schedule, their events, and the text of a trace. Definitions and the types that they are about, and no more.
#![tactic(auto)]

pub mod command;
pub mod entry;
