//! What the checker says, as values of the protocol.
//!
//! The protocol is the Language Server Protocol 3.17 ("Basic JSON Structures"). Places of the checker have lines and columns from 1, and positions of the protocol from 0.
#![tactic(auto)]

mod completions;
mod diagnostics;
pub mod laws;
mod names;
mod positions;
mod references;
mod renames;
mod spans;
mod symbols;

pub use crate::completions::completions_value;
pub use crate::diagnostics::{action_value, diagnostic_value};
pub use crate::names::{hover_value, location_value};
pub use crate::positions::place_at;
pub use crate::references::{highlight_value, reference_value};
pub use crate::renames::{
    document_edit_value, replacement_value, target_value, workspace_edit_value,
};
pub use crate::symbols::{located_symbol_value, symbol_value};
