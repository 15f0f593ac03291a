//! The interface of Prelude: a selection from the Haskell 98 Report, chapter 8. A build makes it once, as a [`SharedPrelude`].
#![tactic(auto)]

mod polish;
mod shared_prelude;
mod standard_prelude;

pub use shared_prelude::SharedPrelude;
pub use standard_prelude::prelude;
