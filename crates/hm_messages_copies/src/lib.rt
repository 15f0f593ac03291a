//! Makes sources in which a variable has a name's type, or a function takes a value of a part's type.
//!
//! The source has all that it had, and one declaration more. That has a copy of the definition, in which a value is in one list with the part. So no other use of the
//! definition gives the part another type. Which texts are put in is proved. Where they are put in is a choice.
#![tactic(auto)]

mod changed;
mod data;
mod definitions;
pub mod laws;
mod spots;
mod texts;

pub use crate::changed::{with_function, with_variable};
pub use crate::data::{Copied, Inside, NamePart, Point, Scoped, Target};
pub use crate::definitions::{
    Declared, declarations_around, declared_in, is_definition, is_signed, name_of,
};
pub use crate::spots::{Headed, TypeSpot, copies_of, spot_of, with_heads};
