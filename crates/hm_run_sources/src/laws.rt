//! Laws of what a run of the plan prints and of the modules of sources, and worked examples. Each is a function with an empty body, whose contract
//! is the law.
ghost use Rattle.hm_run_sources.specs.Laws.{CountsGiveOrigins, CountsGiveSources, HasOnePlanText, HasOnePlanStatus, HasOneRefusal};
ghost use Rattle.hm_run_sources.specs.Worked.{CountsRow, HeadersRow, ModuleRow, SourceRow};

/// Sources have one status, one text of their plan, and one refusal. Only the place of a syntax fault
/// isn't determined.
pub fn one_plan_run()
    ensures text { HasOnePlanText }
    ensures status { HasOnePlanStatus }
    ensures refusal { HasOneRefusal }
{}

/// The number of modules of each source gives each module the source that spells it.
pub fn counts_give_sources()
    ensures sources { CountsGiveSources }
    ensures origins { CountsGiveOrigins }
{}

/// The number of modules of each of two sources.
#[tactic(auto, using(crate::proofs::ModuleCounts::worked_counts))]
pub fn worked_counts()
    ensures { CountsRow }
{}

/// The source of a module next to a source without modules.
#[tactic(auto, using(crate::proofs::ModuleCounts::worked_sources))]
pub fn worked_sources()
    ensures { SourceRow }
{}

/// The headers of a set that is refused for its plan, and of one with a lexical fault.
#[tactic(auto, using(crate::proofs::Origins::worked_headers))]
pub fn worked_headers()
    ensures { HeadersRow }
{}

/// The only module of a source, and one that isn't there.
#[tactic(auto, using(crate::proofs::Origins::worked_module))]
pub fn worked_module()
    ensures { ModuleRow }
{}
