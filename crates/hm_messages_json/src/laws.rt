//! Worked examples. Each is a function with an empty body, and its contract states the example.
ghost use Rattle.hm_messages_json.specs.Worked.{EditsRow, RangesRow};

/// The range of a part, and the edits of changes.
#[tactic(auto, using(crate::proofs::Worked::worked_ranges, crate::proofs::Worked::worked_edits))]
pub fn worked_positions()
    ensures ranges { RangesRow }
    ensures edits { EditsRow }
{}
