//! What users of the map name: `congee::live`.

pub use crate::typed_congee::notes::{Note, learn};
pub use crate::typed_congee::{Busy, Congee, Guard, Refusal, meet};
