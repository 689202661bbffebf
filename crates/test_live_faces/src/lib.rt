//! Tests of the face with typed keys and values of the map that threads read without a lock.
#![tactic(auto)]

#[cfg(test)]
mod chains;
#[cfg(test)]
mod counts;
#[cfg(test)]
mod descents;
#[cfg(test)]
mod guards;
#[cfg(test)]
mod iterators;
#[cfg(test)]
mod limits;
#[cfg(test)]
mod many;
#[cfg(test)]
mod moved;
#[cfg(test)]
mod moved_words;
#[cfg(test)]
mod neighbours;
#[cfg(test)]
mod noted;
#[cfg(test)]
mod pops;
#[cfg(test)]
mod ranges;
#[cfg(test)]
mod refusals;
#[cfg(test)]
mod removals;
#[cfg(test)]
mod retains;
#[cfg(test)]
mod snapshots;
#[cfg(test)]
mod sparse;
#[cfg(test)]
mod steps;
#[cfg(test)]
mod threads;
#[cfg(test)]
mod tries;
#[cfg(test)]
mod words;
#[cfg(test)]
mod writers;
