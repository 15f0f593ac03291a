//! Worked examples, in functions with an empty body, whose contracts have them.
ghost use Rattle.hm_service_symbols.specs.Worked.{ModulesRow, SymbolsRow};

/// The modules of two sources.
#[tactic(auto, using(crate::proofs::WorkedModules::worked_modules))]
pub fn worked_modules()
    ensures { ModulesRow }
{}

/// The symbols of two sources.
#[tactic(auto, using(crate::proofs::WorkedModules::worked_symbols))]
pub fn worked_symbols()
    ensures { SymbolsRow }
{}
