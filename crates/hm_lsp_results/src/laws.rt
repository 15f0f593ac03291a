//! Worked examples. Each is a function with an empty body, and its contract states the example.
ghost use Rattle.hm_lsp_results.specs.Worked.{LocatedRow, MatchesRow, WrittenRow};

/// Which symbols a query finds, and which references are sent.
#[tactic(auto, using(crate::proofs::WorkedResults::worked_matches, crate::proofs::WorkedResults::worked_located))]
pub fn worked_results()
    ensures matches { MatchesRow }
    ensures located { LocatedRow }
{}

/// What is written of a name before a place.
#[tactic(auto, using(crate::proofs::WorkedCompletions::worked_written))]
pub fn worked_written()
    ensures { WrittenRow }
{}
