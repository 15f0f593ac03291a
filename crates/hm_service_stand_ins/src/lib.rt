//! Which texts stand for sources in a second check of a held set, and what is shown of it.
//!
//! [`good_texts`] keeps the last good text of each source, [`second_set`] makes the set of a second check, and [`missed_at`] chooses its diagnostics.
#![tactic(auto)]

mod findings;
mod good;
pub mod laws;
mod missed;
mod said;
mod second;

pub use crate::good::good_texts;
pub use crate::missed::{Second, missed_at};
pub use crate::said::Said;
pub use crate::second::second_set;
