//! Tests of the map with guards that were given back.

mod calls;
mod cleanup_due;
mod emptied;
mod rooms;
mod shrunk;
