//! Splits a stream of bytes into the bodies of messages, and writes a body as a frame.
//!
//! The protocol is the base protocol of language servers. [`Frames`] takes bytes as they are read, in any pieces, and returns the frames of the stream.
//! [`take_all`] takes all that are whole. [`framed`] writes a body as a frame.
#![tactic(auto)]

mod frames;
mod headers;
pub mod laws;
mod looking;
mod writing;

pub use crate::frames::{Frame, Frames, frames_in, take_all};
pub use crate::writing::framed;
