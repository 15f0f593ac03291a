//! Writes messages for programs as JSON objects, each on its own line.
#![tactic(auto)]

mod changes;
pub mod laws;
mod message;
mod objects;
mod positions;

pub use crate::changes::{Change, edits_of};
pub use crate::message::{Edit, Level, Message, Position, Range};
pub use crate::objects::{counts_line, message_line};
pub use crate::positions::{Span, position_at, range_at, range_of};
