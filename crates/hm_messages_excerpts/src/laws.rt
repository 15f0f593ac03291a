//! Worked examples. Each is a function with an empty body, and its contract states the example.
ghost use Rattle.hm_messages_excerpts.specs.Worked.{ColumnsRow, EscapesRow, MarksRow};

/// The mark at a place, bytes as they are shown, and the columns of a place.
#[tactic(auto, using(crate::proofs::WorkedPlaces::worked_marks, crate::proofs::WorkedPlaces::worked_escapes, crate::proofs::WorkedPlaces::worked_columns))]
pub fn worked_excerpts()
    ensures marks { MarksRow }
    ensures escapes { EscapesRow }
    ensures columns { ColumnsRow }
{}
