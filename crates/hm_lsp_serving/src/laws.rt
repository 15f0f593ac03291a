//! Worked examples. Each is a function with an empty body, whose contract is the example.
ghost use Rattle.hm_lsp_serving.specs.Worked.{FramesRow, SessionsRow};

/// Frames without a body, and messages that cancel requests.
#[tactic(auto, using(crate::proofs::WorkedSessions::worked_frames))]
pub fn worked_frames()
    ensures { FramesRow }
{}

/// Sessions in which nothing is read.
#[tactic(auto, using(crate::proofs::WorkedSessions::worked_sessions))]
pub fn worked_sessions()
    ensures { SessionsRow }
{}
