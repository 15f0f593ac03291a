//! The source of each module, by the number of modules of each source.
ghost use Rattle.std.specs.Prelude.{◌≡◌, ◌++◌, ◌≤◌, IfNone, IfOk, IfSome, OnOk, replicate, sum};
ghost use Rattle.hm_run_sources.specs.ModuleCounts.{AreOrigins, IsCountedTo};

use std::alloc::{AllocError, Global};

/// Appends the number of a source, once for each of its modules.
fn add_origins(origins: &mut Vec<usize>, source: usize, count: usize) -> Result<(), AllocError>
    ensures { OnOk result (origins.new.items ≡ origins.old.items ++ replicate count source) }
{
    for _ in 0..count {
        origins.push(source)?;
    }
    Ok(())
}

/// Returns for each module the number of the source that spells it. `counts` has the number of modules of each source; sources are numbered
/// from 0.
pub fn origins_of(alloc: Global, counts: &[usize]) -> Result<Vec<usize>, AllocError>
    ensures { IfOk result (λ origins. AreOrigins counts.now origins.items) }
{
    let mut origins = Vec::new(alloc);
    for source in 0..counts.len() {
        add_origins(&mut origins, source, counts[source])?;
    }
    Ok(origins)
}

/// Returns the number of the source that spells the module with this number, or `None` if there are fewer modules. `counts` has the number of
/// modules of each source. Modules and sources are numbered from 0.
#[tactic(auto, using(crate::proofs::ModuleCounts::left_more, crate::proofs::ModuleCounts::counted_here, crate::proofs::ModuleCounts::counted_out))]
pub fn source_of(counts: &[usize], number: usize) -> Option<usize>
    ensures some { IfSome result (λ source. IsCountedTo counts.now number source) }
    ensures none { IfNone result (sum counts.now ≤ number) }
{
    let mut left = number;
    for source in 0..counts.len() {
        let count = counts[source];
        if left < count {
            return Some(source);
        }
        left -= count;
    }
    None
}
