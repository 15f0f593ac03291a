//! Worked examples: functions with an empty body, whose contracts have the facts.
ghost use Rattle.hm_messages_details.specs.Worked.{ArgumentsRow, CandidateRow, FirstRow, ImportLineRow, LeftOutRow, LengthsRow, ListedRow, NearBindingRow, NearExportRow, NearLocalRow, NearPairRow, PatternRow, RoleRow, SmallFormRow, SpaceRow};

/// A name that only the Report's Prelude has, and one that both have.
#[tactic(auto, using(crate::proofs::WorkedDetails::worked_left_out))]
pub fn worked_details()
    ensures { LeftOutRow }
{}

/// The first of several names, and one that isn't the first.
#[tactic(auto, using(crate::proofs::WorkedDetails::worked_firsts))]
pub fn worked_firsts()
    ensures { FirstRow }
{}

/// Numbers of arguments and of patterns that are right, and others that aren't.
#[tactic(auto, using(crate::proofs::WorkedDetails::worked_arguments, crate::proofs::WorkedDetails::worked_lengths))]
pub fn worked_counts()
    ensures arguments { ArgumentsRow }
    ensures lengths { LengthsRow }
{}

/// A constructor that an import lists, a near name of an export, the line of an import, and the name that a signature may be meant for; and others that aren't so.
#[tactic(auto, using(crate::proofs::WorkedNames::worked_listed, crate::proofs::WorkedNames::worked_near_exports, crate::proofs::WorkedNames::worked_lines, crate::proofs::WorkedNames::worked_bindings))]
pub fn worked_names()
    ensures listed { ListedRow }
    ensures exports { NearExportRow }
    ensures lines { ImportLineRow }
    ensures bindings { NearBindingRow }
{}

/// A type that is no constructor, a name with a small letter, and a signature whose variable a pattern binds; and others that aren't so.
#[tactic(auto, using(crate::proofs::WorkedNames::worked_spaces, crate::proofs::WorkedNames::worked_small_forms, crate::proofs::WorkedNames::worked_patterns))]
pub fn worked_spaces()
    ensures spaces { SpaceRow }
    ensures small_forms { SmallFormRow }
    ensures patterns { PatternRow }
{}

/// What names stand for at their places, and names that may be meant for them; and others that don't.
#[tactic(auto, using(crate::proofs::WorkedRoles::worked_roles, crate::proofs::WorkedRoles::worked_near_pairs))]
pub fn worked_roles()
    ensures roles { RoleRow }
    ensures near_pairs { NearPairRow }
{}

/// What is said of an entity of an ambiguous name, and a local variable near to a name; and others that aren't so.
#[tactic(auto, using(crate::proofs::WorkedCandidates::worked_candidates, crate::proofs::WorkedCandidates::worked_locals))]
pub fn worked_scopes()
    ensures candidates { CandidateRow }
    ensures locals { NearLocalRow }
{}
