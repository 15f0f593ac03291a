//! Worked examples: functions with empty bodies, whose contracts have the facts.
ghost use Rattle.hm_messages_lexemes.specs.Worked.{BlankRow, LexemeRow};

/// Texts that are left out, and some that aren't.
#[tactic(auto, using(crate::proofs::WorkedLexemes::worked_lexemes))]
pub fn worked_lexemes()
    ensures { LexemeRow }
{}

/// A source with blanks in place of an operator.
#[tactic(auto, using(crate::proofs::WorkedLexemes::worked_blanks))]
pub fn worked_blanks()
    ensures { BlankRow }
{}
