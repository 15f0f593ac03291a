//! Worked examples: functions with empty bodies, whose contracts have the facts.
ghost use Rattle.hm_messages_repairs.specs.Worked.{BracketsRow, ChangesRow, ElsewhereRow, FactsRow, NeighboursRow};

/// The open brackets of worked symbols, and the facts that hold at a token after them.
#[tactic(auto, using(crate::proofs::WorkedHints::worked_brackets, crate::proofs::WorkedHints::worked_facts, crate::proofs::WorkedHints::worked_neighbours))]
pub fn worked_hints()
    ensures brackets { BracketsRow }
    ensures facts { FactsRow }
    ensures neighbours { NeighboursRow }
{}

/// A change with which a source can be read, and one with which it can't.
#[tactic(auto, using(crate::proofs::WorkedHints::worked_changes))]
pub fn worked_changes()
    ensures { ChangesRow }
{}

/// A hint that is about an earlier token, whose place is named, and one that isn't.
#[tactic(auto, using(crate::proofs::WorkedElsewhere::worked_elsewhere))]
pub fn worked_elsewhere()
    ensures { ElsewhereRow }
{}
