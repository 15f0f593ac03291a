//! Makes the messages of a build, with details and notes of its faults.
#![tactic(auto)]

mod causes;
mod detailing;
mod exhausted;
mod expected;
mod explaining;
mod exporters;
mod faulty;
mod hidden;
mod joint;
pub mod laws;
mod options;
mod parts;
mod sources;
mod starts;
mod topics;
mod variables;
mod view;

pub use crate::exhausted::module_message;
pub use crate::explaining::explanation;
pub use crate::options::MessageOptions;
pub use crate::starts::starts_of;
pub use crate::view::BuildView;
