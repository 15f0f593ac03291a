//! Makes the output of a run: the status and the text of a build or of a refusal, with the messages that explain it.
#![tactic(auto)]

mod answers;
mod exhausted;
mod later;
mod listed;
mod options;
mod outputs;
mod refused;

pub use crate::exhausted::exhausted_message;
pub use crate::options::{Options, RunOptions};
pub use crate::outputs::{Output, finished_output, refused_output};
