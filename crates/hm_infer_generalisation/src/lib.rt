//! Generalises types to schemes, and takes declared types into inference (Haskell 98 Report, sections 4.4.1 and 4.5.2).
//!
//! A declared type is instantiated, or gets rigid variables, which may not escape (Damas and Milner 1982, section 5).
#![tactic(auto)]

mod collecting;
mod declared;
mod escaping;
mod generalising;

pub use crate::declared::{RigidType, check_instance, declare, with_rigid_variables};
pub use crate::escaping::forbid_escape;
pub use crate::generalising::{Generalised, generalise};
