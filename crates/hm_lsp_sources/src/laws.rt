//! Worked examples. Each is a function with an empty body, and its contract states the example.
ghost use Rattle.hm_lsp_sources.specs.Worked.{FilesRow, NumbersRow, TextsRow};

/// Which source has a name, which text a source has, and what a file that is read again changes.
#[tactic(auto, using(crate::proofs::WorkedNames::worked_numbers, crate::proofs::WorkedNames::worked_texts, crate::proofs::WorkedNames::worked_files))]
pub fn worked_sources()
    ensures numbers { NumbersRow }
    ensures texts { TextsRow }
    ensures files { FilesRow }
{}
