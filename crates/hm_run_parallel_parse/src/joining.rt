//! Joins the modules of two parts of the sources.
ghost use Rattle.std.specs.Prelude.{◌≡◌, ◌++◌, ℕ, List, IfErr, IfOk};
ghost use Rattle.hm_run_sources.specs.Parts.{FailsBehind, Follow};

use hm_run_sources::{CountedModules, SetError};
use std::alloc::AllocError;

/// Returns the modules of a part and of the next part, with the numbers of both.
fn both(first: CountedModules, later: CountedModules) -> Result<CountedModules, AllocError>
    ensures modules { IfOk result (λ r. r.modules.items ≡ first.modules.items ++ later.modules.items) }
    ensures counts { IfOk result (λ r. r.counts.items ≡ first.counts.items ++ later.counts.items) }
{
    let CountedModules {
        mut modules,
        mut counts,
    } = first;
    let CountedModules {
        modules: mut more,
        counts: mut others,
    } = later;
    modules.append(&mut more)?;
    counts.append(&mut others)?;
    Ok(CountedModules { modules, counts })
}

/// Returns the modules of a part and of the next part, with the numbers of both. If both have a fault, returns that of the first.
#[tactic(auto, using(crate::proofs::PartLemmas::follow_both))]
pub(crate) fn joined(
    first: Result<CountedModules, SetError>,
    later: Result<CountedModules, SetError>,
) -> Result<CountedModules, SetError>
    ensures ok { IfOk result (λ r. (before between through : List (List ℕ)) → IfOk first (λ f. Follow before between f.modules.items f.counts.items)
        → IfOk later (λ l. Follow between through l.modules.items l.counts.items) → Follow before through r.modules.items r.counts.items) }
    ensures err { IfErr result (λ e. (sources before between : List (List ℕ)) → IfOk first (λ f. Follow before between f.modules.items f.counts.items)
        → IfErr first (FailsBehind sources before) → IfErr later (FailsBehind sources between) → FailsBehind sources before e) }
{
    let first = match first {
        Ok(first) => first,
        Err(fault) => return Err(fault),
    };
    let later = match later {
        Ok(later) => later,
        Err(fault) => return Err(fault),
    };
    match both(first, later) {
        Ok(read) => Ok(read),
        Err(AllocError) => Err(SetError::Memory),
    }
}
