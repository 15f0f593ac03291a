//! Finished builds.
ghost use Rattle.std.specs.Prelude.{◌≡◌, false, map};
ghost use Rattle.std.specs.Arc.{arc_value};
ghost use Rattle.hm_store.specs.Agreement.{Agree};
ghost use Rattle.hm_store.specs.Builds.{IsAllSettled, state_of};
ghost use Rattle.hm_store_shared.specs.Gathered.{records_in};

use hm_store::Store;
use hm_store_shared::Records;
use hm_syntax::Module;
use std::sync::Arc;

// Why: docs/DECISIONS.md, "Finished builds".
/// A finished build. The type guarantees that each module is settled, that the build wasn't stopped, and that the records agree with the
/// journal.
#[derive(Drop)]
pub struct Finished {
    /// The modules with their verdicts, and the journal.
    pub store: Store,
    /// The record of each worker's calls, made from its pass.
    pub records: Records,
    /// The number of modules of each source.
    pub counts: Vec<usize>,
    pub ghost settled: { IsAllSettled store },
    pub ghost running: { (state_of store).stopped ≡ false },
    pub ghost agreeing: { ∥ Agree store (records_in records) ∥₁ },
}

impl Finished {
    /// Returns the modules of the sources, in order of appearance.
    pub fn modules(&self) -> &[Arc<Module>]
        ensures { map arc_value result.now ≡ self.now.store.modules }
    {
        self.store.modules()
    }
}
