//! Verdicts of modules and of sets of modules: which are good, skipped or faulty, and the text of a report.
//!
//! An `Outcome` is a checked module with its verdict; its type guarantees that the verdict is right. The functions of this file have no body:
//! each is a law, which its contract states.
#![tactic(auto)]

mod kinds;
mod outcome;

ghost use Rattle.hm_verdicts.specs.Laws.{AcceptedAreGood, AcceptedHavePrincipal, EndIsSettled, StepsAreSettled, HasOneModuleVerdict, HasOneReading, HasOneStatus, HasOneText, HasOneVerdict, NamesIgnoreSchemes, NoModulesHaveText, PublishedAreAskedFor, SettledIsReported, SettledIsVerdict, SyntaxIgnoresSchemes, ThreeModulesHaveText, TypedHavePrincipal};
ghost use Rattle.hm_verdicts.specs.WorkedVerdicts.{AcceptedRow, AllGoodRow, CanonicalRow, CircularRow, FirstEntryRow, GeneralRow, LineRow, PlanRow, ProgressRow, PublishedRow, ReportRow, SetRow, SettledRow, SkeletonRow, VerdictRow};

pub use crate::kinds::kind_word;
pub use crate::outcome::{Outcome, Verdict};

/// Well-formedness, faults, exports and the bindings to be typed don't depend on the schemes of imported variables.
pub fn names_ignore_schemes()
    ensures names { NamesIgnoreSchemes }
    ensures syntax { SyntaxIgnoresSchemes }
{}

/// A lawful set has exactly one reading.
pub fn one_reading()
    ensures { HasOneReading }
{}

/// A set that is judged step by step is settled when no module is left. Each module can be judged by the published interfaces of its imports,
/// because these are the interfaces that it requires.
pub fn steps_settle_a_set()
    ensures step { StepsAreSettled }
    ensures asked { PublishedAreAskedFor }
    ensures end { EndIsSettled }
{}

/// If each module has been judged, in any order, by the published interfaces of its imports, each status is the verdict in the set. A published
/// module is good, and its interface has the canonical principal schemes.
pub fn settled_modules_have_their_verdicts()
    ensures verdicts { SettledIsVerdict }
    ensures accepted { AcceptedAreGood }
    ensures principal { AcceptedHavePrincipal }
    ensures report { SettledIsReported }
{}

/// A module has one verdict for given interfaces, and one in a lawful set: good with one interface, faulty with one list of faults, or
/// skipped.
pub fn one_verdict()
    ensures for_interfaces { HasOneModuleVerdict }
    ensures in_set { HasOneVerdict }
{}

/// A well-formed module whose bindings have types has canonical schemes that are as general as its principal ones.
pub fn typed_modules_have_schemes()
    ensures { TypedHavePrincipal }
{}

/// A lawful set has one report and one status, so two builds agree.
pub fn one_report()
    ensures text { HasOneText }
    ensures status { HasOneStatus }
{}

/// The set without modules is lawful, and its report says that it has none.
pub fn no_modules_are_good()
    ensures { NoModulesHaveText }
{}

/// Worked example: of three modules one is good, one exports a module that it doesn't import, and one imports the latter. The first is
/// published, the second is faulty, the third is skipped.
pub fn three_modules_are_reported()
    ensures { ThreeModulesHaveText }
{}

/// Of these three modules only the first is good, and each has one verdict. A plan without the import isn't theirs. A module that imports itself
/// has no skeleton, `b -> a` has the wrong numbers, and a narrower scheme isn't as general.
pub fn worked_verdicts()
    ensures plan { PlanRow }
    ensures skeleton { SkeletonRow }
    ensures circular { CircularRow }
    ensures first_entry { FirstEntryRow }
    ensures verdict { VerdictRow }
    ensures canonical { CanonicalRow }
    ensures general { GeneralRow }
    ensures set { SetRow }
    ensures settled { SettledRow }
    ensures accepted { AcceptedRow }
{}

/// The three modules may be judged in any order, but none is skipped before an import has failed. Their report has a line for each fault, its
/// blocks in order, and the count.
pub fn worked_reports()
    ensures progress { ProgressRow }
    ensures published { PublishedRow }
    ensures line { LineRow }
    ensures report { ReportRow }
    ensures all_good { AllGoodRow }
{}
