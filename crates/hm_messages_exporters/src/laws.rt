//! What follows from the definitions: functions with empty bodies, whose contracts have the facts.
ghost use Rattle.hm_messages_exporters.specs.LeftOut.{LeftOutLaw};
ghost use Rattle.hm_messages_exporters.specs.Worked.{ExportersRow};

/// No import brings a missing name into scope without a qualifier.
#[tactic(auto, using(crate::proofs::Exporting::left_out_imports))]
pub fn left_out_imports()
    ensures { LeftOutLaw }
{}

/// A variable and a constructor that another module exports, and a constructor that it doesn't export.
#[tactic(auto, using(crate::proofs::WorkedExporters::worked_exporters))]
pub fn worked_exporters()
    ensures { ExportersRow }
{}
