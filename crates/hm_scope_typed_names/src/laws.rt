//! Worked examples, in functions with an empty body, whose contracts have them.
ghost use Rattle.hm_scope_typed_names.specs.Worked.{BegunRow, TypeRow, WrittenRow};

/// How names are written, which of them begin with a prefix, and their types.
#[tactic(auto, using(crate::proofs::WorkedTypes::worked_written, crate::proofs::WorkedTypes::worked_begun, crate::proofs::WorkedTypes::worked_types))]
pub fn worked_types()
    ensures written { WrittenRow }
    ensures begun { BegunRow }
    ensures types { TypeRow }
{}
