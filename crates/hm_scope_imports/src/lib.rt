//! The names that imports and a module's own declarations bring into scope (Haskell 98 Report, sections 5.3 and 5.5), and the faults of import lists.
#![tactic(auto)]

mod faulty_imports;
mod found;
mod imported;
mod imports;
mod in_scope;
mod named_modules;
mod selections;

pub use crate::faulty_imports::import_faults;
pub use crate::imported::{are_imports_of, imported_names};
pub use crate::imports::{interfaces_of, scope_of};
pub use crate::in_scope::add_declared;
pub use crate::named_modules::module_names;
