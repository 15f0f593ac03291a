//! Finds a name that isn't in scope, whether a module exports or declares it, and the change that imports it.
#![tactic(auto)]

mod changes;
mod declared;
mod exports;
mod imports;
pub mod laws;
mod looks;
mod missing;

pub use crate::changes::{body_start, import_changes};
pub use crate::declared::declared_at;
pub use crate::exports::{import_item, is_exported};
pub use crate::imports::left_out_by;
pub use crate::looks::Looks;
pub use crate::missing::{Missing, missing_at};
