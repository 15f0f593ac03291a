//! What a check says of the sources of a held set.
use hm_service_messages::Diagnostic;

/// What a check says of the sources of a held set, by their numbers.
#[derive(Clone, Copy)]
pub struct Said<'a> {
    /// The numbers of the sources that are checked.
    pub part: &'a [usize],
    /// Why others are left out.
    pub refused: &'a [Diagnostic],
    /// What is said of those that are checked.
    pub told: &'a [Diagnostic],
}
