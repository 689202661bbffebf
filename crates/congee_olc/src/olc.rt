//! The machine, and what it takes and returns.

pub use olc_machine::machine;
pub use olc_machine::machine::Machine;
pub use olc_replay::replay;
pub use spec_node::child::{Child, ChildRef};
pub use spec_olc::payload::HasMeaning;
pub use spec_olc::trace::{Decision, Line, Trace};
pub use spec_olc::types::{
    Asking, Env, Event, Kind, Op, Outcome, Progress, Reply, Report, Seen, StartError,
};
pub use spec_olc::{payload, trace, types};
