//! Tests of values in slots, and of the maps of payloads over them.
#![tactic(auto)]

#[cfg(test)]
mod alone;
#[cfg(test)]
mod generations;
#[cfg(test)]
mod payloads;
