//! What users of the map name: `congee::live`.

pub use crate::guard::{PayloadGuard, meet};
pub use crate::payload_congee::owners::share;
pub use crate::payload_congee::{CongeeArc, PayloadCongee};
pub use word_slots::lent::Lent;
