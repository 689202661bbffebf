//! Laws of the events that write: what each change of a table of nodes keeps of the place facts and of the map, and
//! what it leaves to the other calls.
#![tactic(auto)]
