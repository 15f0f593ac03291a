//! Keeps the session of a language server: how far it is, the texts of the client's documents, and what each message leads to.
//!
//! [`Session::take`] takes the body of a message. It does no work on texts but holding them: requests about what they mean are left to a service.
#![tactic(auto)]

mod cancelling;
mod documents;
mod folders;
pub mod laws;
mod params;
mod replies;
mod session;
mod stages;

pub use crate::cancelling::Cancelled;
pub use crate::documents::{Document, Documents};
pub use crate::folders::{Opened, opened_by};
pub use crate::params::{position_in, range_in, text_at};
pub use crate::replies::{notice, refusal, reply};
pub use crate::session::{Outcome, Session};
pub use crate::stages::{
    Decision, Method, Question, Refusal, Stage, notification_decision, request_decision,
};
