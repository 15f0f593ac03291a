//! Makes the texts of types in notes, in which names of synonyms stand for types as in the signatures of the module, and finds types that can't be equal and
//! types that would be infinite.
#![tactic(auto)]

mod apart;
mod infinite;
pub mod laws;
mod letters;
mod names;
mod question;
mod shown;
mod texts;

pub use crate::apart::are_apart;
pub use crate::infinite::need_infinite;
pub use crate::letters::{Lettered, Texts, with_letters};
pub use crate::question::Question;
pub use crate::shown::{Alias, aliases_in, folded, is_type_name, names_in, text_of};
pub use crate::texts::between;
