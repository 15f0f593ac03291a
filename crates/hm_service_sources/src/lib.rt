//! Sources that are held while they are edited: which text stands for each, and which of them can be checked.
#![tactic(auto)]

mod changing;
mod held;
mod imports;
pub mod laws;
mod left_out;
mod names;
mod texts;

pub use crate::changing::{ChangeFault, change};
pub use crate::held::HeldSource;
pub use crate::left_out::{all_numbers, checkable};
pub use crate::texts::{HeldTexts, copies, held_texts, texts_at};
