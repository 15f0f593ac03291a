//! Laws of uses. Each law is a function with an empty body, and its contract is the law.
ghost use Rattle.hm_uses.specs.Laws.{ExportFaultsAreUses, ResolversAgree, FindsAll, FindsMeanings, FindsNames, HasKnown};
ghost use Rattle.hm_uses.specs.Worked.{
  AmbiguousRow,
  FirstClauseRow,
  GuardRow,
  HidingRow,
  InnerRow,
  ItemRow,
  LastClauseRow,
  MatchedRow,
  NoParameterRow,
  NotFirstRow,
  NotGuardRow,
  NotMatchedRow,
  NotOwnRow,
  NotScrutineeRow,
  OuterRow,
  ParameterRow,
  ScrutineeRow,
};

/// What the walk over the declarations of a module finds are exactly the names that are written there, in order, each with a meaning that it has
/// there. What it finds in a part of the module is among it.
pub fn found_uses()
    ensures names { FindsNames }
    ensures meanings { FindsMeanings }
    ensures all { FindsAll }
    ensures known { HasKnown }
{}

/// Faults of export lists are uses that say so. A resolver of a module puts the entity of its use in place of a variable.
pub fn faults_and_resolvers()
    ensures exports { ExportFaultsAreUses }
    ensures resolvers { ResolversAgree }
{}

/// Worked modules. The variable of a lambda hides that of the clause around it. A `where` scopes over its guards. The variable of an alternative isn't
/// bound in what is matched. A local function is bound at its first clause. A synonym's right side has its parameters. A name of an import list is what
/// the imported module exports, also after `hiding`. A name of two entities is ambiguous, and means neither.
pub fn worked_modules()
    ensures inner { InnerRow }
    ensures guard { GuardRow }
    ensures scrutinee { ScrutineeRow }
    ensures first_clause { FirstClauseRow }
    ensures parameter { ParameterRow }
    ensures item { ItemRow }
    ensures hiding { HidingRow }
    ensures outer { OuterRow }
    ensures not_guard { NotGuardRow }
    ensures not_scrutinee { NotScrutineeRow }
    ensures last_clause { LastClauseRow }
    ensures no_parameter { NoParameterRow }
    ensures matched { MatchedRow }
    ensures not_matched { NotMatchedRow }
    ensures not_own { NotOwnRow }
    ensures ambiguous { AmbiguousRow }
    ensures not_first { NotFirstRow }
{}
