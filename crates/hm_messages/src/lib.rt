//! Writes messages that editors can jump to: a file, a place in it, what is wrong in plain words, and the line of the source.
#![tactic(auto)]

mod changes;
mod counts;
mod cutting;
mod cycles;
mod faults;
mod files;
mod heading;
pub mod laws;
mod messages;
mod missing;
mod notices;
mod objects;
mod pages;
mod refusals;
mod sentences;
mod starts;
mod topic;

pub use crate::counts::{count_text, further_text};
pub use crate::faults::fault_message;
pub use crate::files::pages_of;
pub use crate::heading::MessageFormat;
pub use crate::messages::{MessageFault, message, message_with, reader_place};
pub use crate::objects::Suggestion;
pub use crate::pages::{Page, Pages};
pub use crate::refusals::{Messages, refusal_messages, source_message};
pub use crate::starts::{ModuleStart, SourceModules};
pub use crate::topic::{ArgumentCounts, BothTypes, Pair, PlacedAdvice, Topic, Way};
pub use hm_messages_titles::NamedFault;
