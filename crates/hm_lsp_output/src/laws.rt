//! Worked examples. Each is a function with an empty body, and its contract states the example.
ghost use Rattle.hm_lsp_output.specs.Worked.{FramesRow};

/// The frames of messages.
#[tactic(auto, using(crate::proofs::WorkedFrames::worked_frames))]
pub fn worked_frames()
    ensures { FramesRow }
{}
