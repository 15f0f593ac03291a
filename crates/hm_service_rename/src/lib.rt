//! Renames a name in a held set, if the checker accepts the set that the rename makes.
//!
//! [`prepare_rename`] finds the name that a rename is of. [`rename_of`] finds the references, puts the new name in their place, checks what is made, and compares the names.
#![tactic(auto)]

mod changed;
mod comparing;
mod good;
pub mod laws;
mod preparing;
mod renaming;
mod results;
mod spelling;
mod texts;
mod whole;

pub use crate::preparing::prepare_rename;
pub use crate::renaming::rename_of;
pub use crate::results::{Prepared, Rename, RenameRefusal, Renamed, SourcePlace, Target};
pub use hm_service_places::CheckedSet;
pub use hm_uses_references::Reference;
