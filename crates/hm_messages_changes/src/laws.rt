//! What follows from the definitions: functions with empty bodies, whose contracts have the facts.
ghost use Rattle.hm_messages_changes.specs.Blanks.{SpacesMoveNothing};

/// Spaces in place of a definition move nothing in its source.
#[tactic(auto, using(crate::proofs::Spaces::spaces_move_nothing))]
pub fn spaces_move_nothing()
    ensures { SpacesMoveNothing }
{}
