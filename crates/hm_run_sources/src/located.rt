//! The headers of modules with their sources.
ghost use Rattle.std.specs.Prelude.{◌≡◌, ℕ, List, IfOk, length, map, sum};
ghost use Rattle.hm_run_sources.specs.ModuleCounts.{AreCountedModules};
ghost use Rattle.hm_run_sources.specs.Origins.{AreLocated};

use crate::{CountedModules, origins_of};
use hm_syntax::{Header, Module, Name};
use std::alloc::{AllocError, Global};
use std::fmt;

/// The header of a module, with the number of its source, counted from 0.
#[derive(Drop)]
pub struct Located {
    pub header: Header,
    pub source: usize,
}

// Why: docs/DECISIONS.md, "The module without memory".
/// A module of sources: its number and that of its source, both counted from 0, and its name.
pub struct SourceModule {
    pub number: usize,
    pub source: usize,
    pub name: Name,
}

impl Drop for SourceModule {
    // Why: docs/DECISIONS.md, "Drops".
    fn drop(self) {
        let SourceModule {
            number: _,
            source: _,
            name: _name,
        } = self;
    }
}

impl fmt::Debug for SourceModule {
    /// Writes the number of the module.
    fn fmt<W: fmt::Write>(&self, f: &mut fmt::Formatter<W>) -> fmt::Result {
        fmt::Debug::fmt(&self.number, f)
    }
}

/// Returns the headers of modules. `origins` has the number of each module's source.
fn with_origins(
    alloc: Global,
    modules: Vec<Module>,
    origins: &[usize],
) -> Result<Vec<Located>, AllocError>
    requires { length origins.now ≡ length modules.items }
    ensures headers { IfOk result (λ located. map (λ l. l.header) located.items ≡ map (λ m. m.header) modules.items) }
    ensures sources { IfOk result (λ located. map (λ l. l.source) located.items ≡ origins.now) }
{
    let mut located = Vec::new(alloc);
    for module in modules {
        let Module { header, .. } = module;
        let source = origins[located.len()];
        located.push(Located { header, source })?;
    }
    Ok(located)
}

/// Returns the headers of counted modules, each with the number of its source.
#[tactic(auto, using(crate::proofs::Origins::located_by_counts))]
pub(crate) fn located_headers(
    alloc: Global,
    read: CountedModules,
) -> Result<Vec<Located>, AllocError>
    requires { length read.modules.items ≡ sum read.counts.items }
    ensures { IfOk result (λ located. (sources : List (List ℕ)) → AreCountedModules sources read.modules.items read.counts.items
        → AreLocated sources located.items) }
{
    let CountedModules { modules, counts } = read;
    let origins = origins_of(alloc, counts.as_slice())?;
    with_origins(alloc, modules, origins.as_slice())
}
