//! Laws of scopes, faults and cores. Each law is a function with an empty body, and its contract is the law.

ghost use Rattle.hm_names.specs.Worked.{
  AmbiguousRow,
  ArityRow,
  BinderRow,
  ClashRow,
  ClauseLengthRow,
  DuplicateRow,
  ExpansionRow,
  HiddenRow,
  KeptRow,
  LeftOutRow,
  NoBindingRow,
  NoCaptureRow,
  NoDuplicateRow,
  NonLinearRow,
  NotExportedRow,
  NotImportedRow,
  PatternRow,
  RecursiveRow,
  UnboundRow,
  WholeRow,
};
ghost use Rattle.hm_names.specs.Laws.{
  LookupsResolve,
  NotedStands,
  AssumesClosed,
  AssumesFirst,
  BindsDeclared,
  BindsDistinct,
  BindsOwn,
  ExpansionSubstitutes,
  ExportsOwnOrImported,
  HasOneCore,
  HasOneInterface,
  HasOneResolution,
  HasOneSyntax,
  HasMeaning,
  HasResolver,
  HasScope,
  IsElaborated,
  KeepsExports,
  TopIsBound,
};

/// A module has one meaning. Each name is unbound, ambiguous, or means one entity. A well-formed module has one resolution of its names, one
/// expansion of its synonyms, one core, one binding list and one set of assumptions. With schemes for its variables, it has one interface. An
/// exported type means in the core what it means in the module.
pub fn one_meaning()
    ensures scope { HasScope }
    ensures meaning { HasMeaning }
    ensures resolution { HasResolver }
    ensures no_other { HasOneResolution }
    ensures elaboration { IsElaborated }
    ensures syntax { HasOneSyntax }
    ensures core { HasOneCore }
    ensures interface { HasOneInterface }
    ensures exports { KeepsExports }
{}

/// The binding list of a core binds each declared variable and each pattern binding of the module once, and nothing else. The variables that a
/// module exports are its own, or come from an interface.
pub fn variables_of_a_module()
    ensures distinct { BindsDistinct }
    ensures own { BindsOwn }
    ensures declared { BindsDeclared }
    ensures top { TopIsBound }
    ensures exported { ExportsOwnOrImported }
{}

/// The assumptions about imported variables are closed schemes, namely those of the first entry of each.
pub fn assumptions_of_imports()
    ensures closed { AssumesClosed }
    ensures first { AssumesFirst }
{}

/// A synonym with its arguments stands for its right side with the types of the arguments in place of the parameters.
pub fn expansion_of_synonyms()
    ensures { ExpansionSubstitutes }
{}

/// Worked modules have the right faults at the right places. An import with `hiding` leaves a name unbound. A name that is in scope only
/// qualified isn't exported with its module. A synonym takes its arguments in the order of its parameters. A core has
/// the right side of an exported synonym, and not that of another one. A pattern binding binds its
/// variables and itself. A local binder with a qualifier binds the bare name, and captures no entity.
pub fn worked_modules()
    ensures not_exported { NotExportedRow }
    ensures duplicate { DuplicateRow }
    ensures no_duplicate { NoDuplicateRow }
    ensures no_binding { NoBindingRow }
    ensures unbound { UnboundRow }
    ensures hidden { HiddenRow }
    ensures ambiguous { AmbiguousRow }
    ensures clash { ClashRow }
    ensures whole { WholeRow }
    ensures not_imported { NotImportedRow }
    ensures non_linear { NonLinearRow }
    ensures arity { ArityRow }
    ensures clause_length { ClauseLengthRow }
    ensures recursive { RecursiveRow }
    ensures expansion { ExpansionRow }
    ensures kept { KeptRow }
    ensures left_out { LeftOutRow }
    ensures pattern { PatternRow }
    ensures binder { BinderRow }
    ensures no_capture { NoCaptureRow }
{}

/// The faults that the walk over a module finds are those in its trees.
pub fn noted_faults()
    ensures { NotedStands }
{}

/// The walk replaces names exactly as a resolver of the module does.
pub fn lookups_resolve()
    ensures { LookupsResolve }
{}
