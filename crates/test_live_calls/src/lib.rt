//! Tests of the map that threads read without a lock.
#![tactic(auto)]

#[cfg(test)]
mod again;
#[cfg(test)]
mod busy;
#[cfg(test)]
mod calls;
#[cfg(test)]
mod computes;
#[cfg(test)]
mod copies;
#[cfg(test)]
mod detached;
#[cfg(test)]
mod exchanges;
#[cfg(test)]
mod limits;
#[cfg(test)]
mod pool;
#[cfg(test)]
mod shrunk;
#[cfg(test)]
mod tests;
#[cfg(test)]
mod updates;
