//! Finds the bytes of a position and the position of a byte, and changes texts by ranges.
#![tactic(auto)]

mod changes;
mod cursors;
mod known_starts;
pub mod laws;
mod lines;
mod positions;
mod units;

pub use crate::changes::{Change, ChangeFault, Range, all_changed};
pub use crate::cursors::Cursor;
pub use crate::positions::{Position, offset_of, position_of};
pub use crate::units::Encoding;
