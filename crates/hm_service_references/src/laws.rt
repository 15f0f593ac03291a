//! Worked examples, in functions with an empty body, whose contracts have them.
ghost use Rattle.hm_service_references.specs.Worked.{SkippedRow, SourceRow};

/// The names of a skipped module, and the source of a module.
#[tactic(auto, using(crate::proofs::WorkedNames::worked_skipped, crate::proofs::WorkedNames::worked_sources))]
pub fn worked_names()
    ensures skipped { SkippedRow }
    ensures sources { SourceRow }
{}
