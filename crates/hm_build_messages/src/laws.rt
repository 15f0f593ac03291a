//! What follows from the definitions: functions with empty bodies, whose contracts have the facts.
ghost use Rattle.hm_build_messages.specs.WorkedLimits.{LimitsRow};
ghost use Rattle.hm_build_messages.specs.WorkedOrder.{OrderRow};
ghost use Rattle.hm_build_messages.specs.WorkedParts.{PartRow};

/// After the note that the limit on trials is reached, no fault of a module has notes, and no note says it again.
#[tactic(auto, using(crate::proofs::Turns::worked_limits))]
pub fn limit_is_stated_once()
    ensures { LimitsRow }
{}

/// Which modules have notes, and how many of them are shown.
#[tactic(auto, using(crate::proofs::WorkedOrder::worked_order))]
pub fn first_notes_are_shown()
    ensures { OrderRow }
{}

/// Where the message about a part is left out.
#[tactic(auto, using(crate::proofs::WorkedParts::worked_parts))]
pub fn parts_have_messages()
    ensures { PartRow }
{}
