//! Worked examples, in functions with an empty body, whose contracts have them.
ghost use Rattle.hm_uses_renames.specs.Worked.{MeaningsRow, TextsRow};

/// Meanings before and after a rename, and a text with a new name.
#[tactic(auto, using(crate::proofs::WorkedRenames::worked_meanings, crate::proofs::WorkedRenames::worked_texts))]
pub fn worked_renames()
    ensures meanings { MeaningsRow }
    ensures texts { TextsRow }
{}
