//! Publications.

use hm_verdicts::Outcome;

/// The publication of a good module: its number, its outcome, and its place in the journal.
#[derive(Drop)]
pub struct Publication {
    pub number: usize,
    pub place: usize,
    pub outcome: Outcome,
}
