//! Worked examples.
ghost use Rattle.hm_lsp_server.specs.Worked.{OutcomesRow, RepliesRow, SecondRow, SentRow, TakenRow};

/// Replies to a notification and to a request, and what else follows from a message.
#[tactic(auto, using(crate::proofs::WorkedReplies::worked_replies, crate::proofs::WorkedReplies::worked_taken, crate::proofs::WorkedReplies::worked_outcomes))]
pub fn worked_replies()
    ensures replies { RepliesRow }
    ensures taken { TakenRow }
    ensures outcomes { OutcomesRow }
{}

/// What is sent of a source, and what is shown of a second check.
#[tactic(auto, using(crate::proofs::WorkedSources::worked_sent, crate::proofs::WorkedSources::worked_second))]
pub fn worked_sources()
    ensures sent { SentRow }
    ensures second { SecondRow }
{}
