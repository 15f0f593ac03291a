//! Ends a build after its workers.
ghost use Rattle.std.specs.Prelude.{◌≡◌, ◌⊎◌, ℕ, List, IfErr, IfOk, IsErrOf};
ghost use Rattle.hm_build_reports.specs.FinishedBuilds.{HasEnded, IsFinished};
ghost use Rattle.hm_run_sources.specs.ModuleCounts.{AreCountedModules};
ghost use Rattle.hm_run_sources.specs.SourceModules.{AreModulesOf};
ghost use Rattle.hm_store_shared.specs.Gathered.{records_in};

use crate::{BuildFault, Finished};
use hm_build_reports::has_ended;
use hm_store::Store;
use hm_store_shared::Records;
use std::alloc::Global;

// Why: docs/DECISIONS.md, "No comparison of modules".
/// Returns the finished build of sources with these numbers of modules.
///
/// # Errors
///
/// `Mixed` if the build isn't complete or its records don't agree with its journal, and `Memory` if memory ran out.
pub fn finished(
    alloc: Global,
    store: Store,
    records: Records,
    counts: Vec<usize>,
    workers: usize,
) -> Result<Finished, BuildFault>
    ensures finished { IfOk result (λ f. (sources : List (List ℕ)) → AreModulesOf sources store.modules → IsFinished sources workers f.store (records_in f.records)) }
    ensures counted { IfOk result (λ f. (sources : List (List ℕ)) → AreCountedModules sources store.modules counts.items
        → AreCountedModules sources f.store.modules f.counts.items) }
    ensures given { IfOk result (λ f. (f.store ≡ store) × (f.records ≡ records) × (f.counts ≡ counts)) }
    ensures err { IfErr result (λ e. (e ≡ BuildFault.Memory) ⊎ (e ≡ BuildFault.Mixed)) }
    // `Mixed` only if the build hasn't ended as one without faults does.
    ensures mixed { IsErrOf result BuildFault.Mixed → ¬ HasEnded workers store (records_in records) }
{
    store.legal();
    if !has_ended(alloc, &store, records.as_slice(), workers)? {
        return Err(BuildFault::Mixed);
    }
    Ok(Finished {
        store,
        records,
        counts,
    })
}
