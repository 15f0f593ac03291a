//! Laws of the text of a journal and of workers' records. Each law is a function with an empty body, and its contract is the law.
ghost use Rattle.hm_build_reports.specs.Laws.{AreLinesNumbered};
ghost use Rattle.hm_build_reports.specs.Worked.{FinishedRow, NumberedRow, RoundsRow};

/// The line of an entry has the number of publications before it.
#[tactic(auto, using(crate::proofs::JournalLines::next_line))]
pub fn lines_are_numbered()
    ensures { AreLinesNumbered }
{}

/// Worked examples: calls in rounds, numbered records, and finished builds.
pub fn worked_records()
    ensures rounds { RoundsRow }
    ensures numbered { NumberedRow }
    ensures finished { FinishedRow }
{}
