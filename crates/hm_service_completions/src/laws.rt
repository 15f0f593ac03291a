//! Worked examples, in functions with an empty body, whose contracts have them.
ghost use Rattle.hm_service_completions.specs.Worked.{ModuleRow, NoModuleRow};

/// The module at a line, and the completions of a source without one.
#[tactic(auto, using(crate::proofs::WorkedCompletions::worked_modules, crate::proofs::WorkedCompletions::worked_none))]
pub fn worked_completions()
    ensures modules { ModuleRow }
    ensures none { NoModuleRow }
{}
