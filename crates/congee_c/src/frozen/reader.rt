//! What a handle of a frozen map holds.
//!
//! Tested in `tools/c-library`.

use crate::held::Held;
use std::alloc::{AllocFailed, Global};
use std::mem::replace;
use std::sync::Arc;

/// One of the readers of a map that nobody changes.
#[derive(Drop)]
pub enum Reader {
    /// The map, where it was on the heap before.
    Of(Arc<Box<Held>>),
    /// No map: inside a call alone, before there is one and once it is taken out.
    Empty,
}

impl Reader {
    ghost use Rattle.std.specs.Prelude.{◌≡◌, [], IfOk, IfErr, IfSome, IfNone};
    ghost use Rattle.congee_c.specs.Frozen.{pairs_of, IsReaderOf, ReadSame};

    /// The first reader of the map. Where there is no memory, the map is returned as it was.
    pub fn first(alloc: Global, held: Box<Held>) -> Result<Reader, Box<Held>>
        ensures ok { IfOk result (λ reader. IsReaderOf reader held.value) }
        ensures err { IfErr result (λ same. same.value ≡ held.value) }
    {
        match Arc::new(alloc, held) {
            Ok(share) => Ok(Reader::Of(share)),
            Err(failed) => {
                let AllocFailed { value } = failed;
                Err(value)
            }
        }
    }

    /// One more reader of the map, or `None` where there are 2 to the 63 readers or there is no map.
    pub fn another(&self) -> Option<Reader>
        ensures { IfSome result (λ other. ReadSame other self.now) }
    {
        match self {
            Reader::Of(share) => match Arc::try_clone(share) {
                Ok(other) => Some(Reader::Of(other)),
                Err(_) => None,
            },
            Reader::Empty => None,
        }
    }

    /// Takes the map out, if this is its last reader.
    pub fn thaw(&mut self) -> Option<Box<Held>>
        ensures some { IfSome result (λ held. IsReaderOf self.old held.value) }
        ensures none { IfNone result (self.new ≡ self.old) }
    {
        match replace(self, Reader::Empty) {
            Reader::Of(share) => match Arc::try_unwrap(share) {
                Ok(held) => Some(held),
                Err(share) => {
                    *self = Reader::Of(share);
                    None
                }
            },
            Reader::Empty => None,
        }
    }

    /// What it reads, or `None` where there is no map.
    pub fn held(&self) -> Option<&Held>
        ensures some { IfSome result (λ held. held.now.map.pairs ≡ pairs_of self.now) }
        ensures none { IfNone result (pairs_of self.now ≡ []) }
    {
        match self {
            Reader::Of(share) => Some(share),
            Reader::Empty => None,
        }
    }
}
