//! Makes the changed sources of trials, whose texts are proved.
//!
//! There is a hole, another pattern or an exchange in place of a part, a text around it, a constructor in front of it, a probe in place of a definition, or spaces in place of
//! definitions. Which changes are tried first is a choice.
#![tactic(auto)]

mod blanks;
mod candidates;
mod changes;
mod constructors;
mod cutting;
mod data;
mod edits;
mod exchanges;
mod holes;
mod insertions;
pub mod laws;
mod layout;
mod locals;
mod neighbours;
mod patterns;
mod places;
mod removals;
mod replacing;
mod reported;
mod wildcards;

pub use crate::blanks::{ScopeChange, changed_by};
pub use crate::candidates::insertions_in;
pub use crate::changes::{SmallChange, changes_at, exchanges_at};
pub use crate::constructors::{Wrapper, constructor_name, with_constructor, wrappers_of};
pub use crate::cutting::{Cut, cut_of};
pub use crate::data::{HOLE, Layout, Local, Other, Rebound, SourceRange, Span};
pub use crate::edits::{Edit, Filling, edited, in_place};
pub use crate::exchanges::with_exchanged;
pub use crate::holes::with_hole;
pub use crate::insertions::{Insertion, with_insertion};
pub use crate::laws::spaces_move_nothing;
pub use crate::layout::{with_alone, with_probe};
pub use crate::locals::{local_of, own_name, signed_heads};
pub use crate::neighbours::pattern_exchanges_in;
pub use crate::patterns::{BindingPlace, add_open_patterns, binding_place};
pub use crate::places::{bytes_of, part_of, place_of_byte};
pub use crate::removals::without;
pub use crate::replacing::replaced_of;
pub use crate::reported::Reported;
pub use crate::wildcards::{are_inside, bindings, with_wildcard};
