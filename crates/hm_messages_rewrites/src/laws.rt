//! Worked examples: functions with an empty body, whose contracts have the facts.
ghost use Rattle.hm_messages_rewrites.specs.Worked.{RewritesRow};

/// A near name with its qualifier, a bracket and a word before a token, and a word at the end of a source.
#[tactic(auto, using(crate::proofs::Worked::worked_rewrites))]
pub fn worked_rewrites()
    ensures { RewritesRow }
{}
