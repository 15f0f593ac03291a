//! Laws for inference.

ghost use Rattle.hm_typing.specs.Laws.{
  EveryExpressionIsAnswered,
  ExpressionsGeneraliseAlike,
  GroupsGiveOrder,
  HasGroups,
  NumberedGroupsAreGroups,
  PrincipalOrNone,
  UnificationIsDecided,
  UnitsGeneraliseAlike,
};

/// Each unification problem has a most general unifier, or no unifier (Damas and Milner 1982, section 6, after Robinson).
pub fn unification_is_decided()
    ensures { UnificationIsDecided }
{}

/// The constraint that an expression has a type, added to a unification problem, is again a unification problem, or has no solution.
pub fn every_expression_is_answered()
    ensures { EveryExpressionIsAnswered }
{}

/// A list of bindings under closed assumptions has principal schemes, or none.
pub fn principal_or_none()
    ensures { PrincipalOrNone }
{}

/// Generalisation may keep any set of variables that has all variables free in the assumptions after solving, and otherwise only variables
/// from the outer problem. The schemes are the same.
pub fn generalisation_may_keep_outer_variables()
    ensures expressions { ExpressionsGeneraliseAlike }
    ensures units { UnitsGeneraliseAlike }
{}

/// Groups of mutual reach, each after all others that it reaches, are an order in which the units of a list can be inferred. The groups of a
/// graph over numbered names are such groups. Each list has some.
pub fn groups_are_an_order()
    ensures groups_give_order { GroupsGiveOrder }
    ensures numbered_groups { NumberedGroupsAreGroups }
    ensures has_groups { HasGroups }
{}
