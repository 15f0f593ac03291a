//! The build store. Each call is one step of the build object.
ghost use Rattle.std.specs.Prelude.{◌≡◌, ◌↔◌, ◌⊎◌, ◌<◌, ◌≤◌, ◌^◌, ℕ, IfOk, IsSome, None, OnOk, count_by, length, map, not, false, option_map, replicate};
ghost use Rattle.std.specs.Arc.{arc_value};
ghost use Rattle.std.specs.Option.{option_copied};
ghost use Rattle.hm_graph_components.specs.Digraph.{Reaches};
ghost use Rattle.hm_verdicts.specs.Sets.{IsLawfulSet};
ghost use Rattle.hm_verdicts.specs.Outcomes.{IsGood, verdict_of};
ghost use Rattle.hm_store.specs.Builds.{IsAllSettled, IsLegal, IsNew, Refuses, Settles, after_claim, after_stop, interface_at, kept_at, state_of, status_by, with_kept};
ghost use Rattle.hm_store.specs.Objects.{is_publication, publications, reply_of, status_at};
ghost use Rattle.hm_store.specs.declared.object.Claimed.TheVariants.{Done};
ghost use Rattle.hm_store.specs.declared.object.Entry.TheVariants.{Fail, Publish};
ghost use Rattle.hm_store.specs.declared.object.Status.TheVariants.{Failed, Published, Skipped};

use crate::object::{Claimed, Entry, Refusal, Status};
use hm_graph::{Dependents, Plan};
use hm_syntax::Module;
use hm_types::Interface;
use hm_verdicts::{Outcome, Verdict};
use readiness::{skip_dependents, status_at};
use ready_set::{close_imports, import_counts, reply_without_job, take_least, without_imports};
use std::alloc::{AllocError, Global};
use std::cmp::Reverse;
use std::collections::BinaryHeap;
use std::marker::Model;
use std::sync::Arc;

mod audit;
mod readiness;
mod ready_set;
mod refusing;

/// A build: its modules with their import plan, the journal, and the outcomes of checked modules.
///
/// The type guarantees that the journal is legal and the statuses are those after it. Each outcome is right for the published interfaces of its
/// module's imports. The counts of open imports and the set of ready modules match the statuses.
pub struct Store {
    modules: Vec<Arc<Module>>,
    plan: Plan,
    search: Dependents,
    statuses: Vec<Status>,
    /// For each module, the number of imports that aren't published.
    open_imports: Vec<usize>,
    /// The waiting modules without an open import, the least first.
    ready: BinaryHeap<Reverse<usize>>,
    /// The number of claimed modules.
    claimed: usize,
    outcomes: Vec<Option<Outcome>>,
    journal: Vec<Entry>,
    stopped: bool,
}

impl Drop for Store {
    fn drop(self) {
        let Store {
            modules: _modules,
            plan: _plan,
            search: _search,
            statuses: _statuses,
            open_imports: _open_imports,
            ready: _ready,
            claimed: _,
            outcomes: _outcomes,
            journal: _journal,
            stopped: _,
        } = self;
    }
}

impl Model for Store {
    ghost use Rattle.std.specs.Coded.{codes};
    ghost use Rattle.hm_syntax.specs.Codes.{coded_declaration};
    ghost use Rattle.hm_types.specs.Interfaces.{coded_exports};
    ghost use Rattle.hm_store.specs.Builds.{Build};
    ghost use Rattle.hm_store.specs.StoresInside.{IsKept, build};

    ghost Value = { Build };

    ghost coded = { Prim.hlevel (codes, coded_declaration, coded_exports) };

    ghost view = { build };

    ghost invariant = { IsKept };
}

impl Store {
    /// Returns a store for these modules, with an empty journal. Allocates all memory that its steps need.
    pub fn new(alloc: Global, modules: Vec<Arc<Module>>, plan: Plan) -> Result<Store, AllocError>
        requires { IsLawfulSet (record { modules = map arc_value modules.items; plan = plan }) }
        ensures new { IfOk result (IsNew (map arc_value modules.items) plan) }
    {
        let count = modules.len();
        let search = Dependents::new(alloc, count)?;
        let open_imports = import_counts(alloc, &plan)?;
        let ready = without_imports(alloc, &open_imports)?;
        let statuses = Vec::from_elem(alloc, Status::Waiting, count)?;
        let outcomes = no_outcomes(alloc, count)?;
        let journal = Vec::with_capacity(alloc, 2 * count + 1)?;
        Ok(Store {
            modules,
            plan,
            search,
            statuses,
            open_imports,
            ready,
            claimed: 0,
            outcomes,
            journal,
            stopped: false,
        })
    }

    /// Returns the modules, numbered from 0.
    pub fn modules(&self) -> &[Arc<Module>]
        ensures { map arc_value result.now ≡ self.now.modules }
    {
        self.modules.as_slice()
    }

    /// Returns the import plan.
    pub fn plan(&self) -> &Plan
        ensures { result.now ≡ self.now.given.imports }
    {
        &self.plan
    }

    /// Returns the journal so far.
    pub fn journal(&self) -> &[Entry]
        ensures journal { result.now ≡ self.now.journal }
        ensures legal { IsLegal self.now }
    {
        self.journal.as_slice()
    }

    /// Shows that the build of a store is legal.
    pub fn legal(&self)
        ensures { IsLegal self.now }
    {
        let _ = &self.journal;
    }

    /// Returns the number of publications among the first `at` entries of the journal.
    pub fn publications(&self, at: usize) -> usize
        requires { at ≤ length self.now.journal }
        ensures { result ≡ publications self.now.journal at }
    {
        publications_in(&self.journal()[..at])
    }

    /// Returns the number of entries in the journal.
    pub fn entries(&self) -> usize
        ensures is { result ≡ length self.now.journal }
        ensures few { result < 2 ^ 62 }
        ensures legal { IsLegal self.now }
    {
        self.journal.len()
    }

    /// Returns the status of a module.
    pub fn status(&self, number: usize) -> Status
        requires { number < length self.now.modules }
        ensures { result ≡ status_at (state_of self.now).statuses number }
    {
        self.status_or_skipped(number)
    }

    /// Returns the status of a module, or `Skipped` for a number that no module has.
    fn status_or_skipped(&self, number: usize) -> Status
        ensures { result ≡ status_at (state_of self.now).statuses number }
    {
        status_at(&self.statuses, number)
    }

    /// Returns whether the build was stopped.
    pub fn is_stopped(&self) -> bool
        ensures { result ≡ (state_of self.now).stopped }
    {
        self.stopped
    }

    /// Returns the verdict of a module, or `None` if it is neither published nor failed.
    pub fn verdict(&self, number: usize) -> Option<&Verdict>
        requires { number < length self.now.modules }
        ensures verdict { option_map verdict_of (option_copied result) ≡ option_map (λ c. c.verdict) (kept_at self.now.kept number) }
        ensures settled { IsSome result ↔ ((status_at (state_of self.now).statuses number ≡ Published)
            ⊎ (status_at (state_of self.now).statuses number ≡ Failed)) }
    {
        Some(self.outcomes[number].as_ref()?.verdict())
    }

    /// Returns the outcome of a module, or `None` if it is neither published nor failed.
    pub fn outcome(&self, number: usize) -> Option<&Outcome>
        requires { number < length self.now.modules }
        ensures { option_map (λ o. o.now) result ≡ kept_at self.now.kept number }
    {
        self.outcomes[number].as_ref()
    }

    // Why: docs/DECISIONS.md, "Ready modules".
    /// Claims the least waiting module whose imports are all published.
    pub fn claim(&mut self, worker: usize) -> Claimed
        ensures reply { result ≡ reply_of self.old.given (state_of self.old) }
        ensures step { self.new ≡ after_claim self.old worker result }
        // If nothing is left to do and the build wasn't stopped, all modules are settled.
        ensures done { result ≡ Done → (state_of self.old).stopped ≡ false → IsAllSettled self.new }
    {
        if self.stopped {
            return Claimed::Done;
        }
        let Some(number) = take_least(&mut self.ready) else {
            return reply_without_job(self.claimed);
        };
        self.statuses[number] = Status::Claimed(worker);
        self.claimed += 1;
        self.journal.push_reserved(Entry::Claim {
            worker,
            module: number,
        });
        Claimed::Job(number)
    }

    // Why: docs/DECISIONS.md, "By value".
    /// Publishes the interface of a module that this worker has claimed. The outcome must be good.
    ///
    /// # Errors
    ///
    /// Returns the outcome, and changes nothing. `NotYours` if the worker hasn't claimed the module. Else `Stranger` if the outcome isn't of that
    /// module, or isn't for the published interfaces of its imports.
    pub fn publish(
        &mut self,
        worker: usize,
        number: usize,
        outcome: Outcome,
    ) -> Result<(), (Refusal, Outcome)>
        requires { IsGood outcome.verdict }
        ensures { Settles self.old worker number outcome (Publish worker number) self.new result }
    {
        match self.refusal(worker, number, &outcome) {
            Some(refusal) => Err((refusal, outcome)),
            None => {
                self.publish_fitting(worker, number, outcome);
                Ok(())
            }
        }
    }

    // Why: docs/DECISIONS.md, "Calls for the lock alone".
    /// Publishes the interface of a module for which `refusal` returns `None`. Doesn't compare the trees again.
    pub fn publish_fitting(&mut self, worker: usize, number: usize, outcome: Outcome)
        requires good { IsGood outcome.verdict }
        requires fits { Refuses self.old worker number outcome None }
        ensures { self.new ≡ with_kept self.old number outcome (Publish worker number) }
    {
        self.statuses[number] = status_by(outcome.verdict());
        self.outcomes[number] = Some(outcome);
        self.claimed -= 1;
        let importers = self.plan.importers(number);
        close_imports(
            &mut self.open_imports,
            &self.statuses,
            &mut self.ready,
            importers,
        );
        self.journal.push_reserved(Entry::Publish {
            worker,
            module: number,
        });
    }

    // Why: docs/DECISIONS.md, "Failures".
    /// Fails a module that this worker has claimed, and skips the modules that depend on it. The outcome must be faulty.
    ///
    /// # Errors
    ///
    /// Those of `publish`.
    pub fn fail(
        &mut self,
        worker: usize,
        number: usize,
        outcome: Outcome,
    ) -> Result<(), (Refusal, Outcome)>
        requires { ¬ IsGood outcome.verdict }
        ensures settles { Settles self.old worker number outcome (Fail worker number) self.new result }
        // Each module that imports it, directly or not, is skipped.
        ensures skipped { OnOk result ((k : ℕ) → Reaches self.old.given.imports k number → status_at (state_of self.new).statuses k ≡ Skipped) }
    {
        match self.refusal(worker, number, &outcome) {
            Some(refusal) => Err((refusal, outcome)),
            None => {
                self.statuses[number] = status_by(outcome.verdict());
                self.outcomes[number] = Some(outcome);
                self.claimed -= 1;
                skip_dependents(&self.plan, &mut self.search, &mut self.statuses, number);
                self.journal.push_reserved(Entry::Fail {
                    worker,
                    module: number,
                });
                Ok(())
            }
        }
    }

    /// Stops the build: every later claim gets `Done`. Returns true the first time, and changes nothing after that.
    pub fn stop(&mut self, worker: usize) -> bool
        ensures reply { result ≡ not (state_of self.old).stopped }
        ensures step { self.new ≡ after_stop self.old worker result }
    {
        let first = !self.stopped;
        if first {
            self.stopped = true;
            self.journal.push_reserved(Entry::Stop { worker });
        }
        first
    }

    /// Returns the published interface of a module. Returns `None` if it isn't published, and for a number that no module has.
    pub fn look(&self, number: usize) -> Option<&Arc<Interface>>
        ensures interface { option_map arc_value (option_copied result) ≡ interface_at self.now.kept number }
        ensures published { IsSome result ↔ (status_at (state_of self.now).statuses number ≡ Published) }
    {
        match self.outcomes.get(number)?.as_ref()?.verdict() {
            Verdict::Good(interface) => Some(interface),
            Verdict::Faulty(_) => None,
        }
    }
}

/// Returns the status of a module with this verdict.
fn status_by(verdict: &Verdict) -> Status
    ensures { result ≡ status_by (verdict_of verdict.now) }
{
    match verdict {
        Verdict::Good(_) => Status::Published,
        Verdict::Faulty(_) => Status::Failed,
    }
}

/// Returns the number of publications among these entries.
fn publications_in(entries: &[Entry]) -> usize
    ensures { result ≡ count_by is_publication entries.now }
{
    let mut count: usize = 0;
    for entry in entries {
        if entry.is_publication() {
            count += 1;
        }
    }
    count
}

/// Returns `count` times no outcome.
fn no_outcomes(alloc: Global, count: usize) -> Result<Vec<Option<Outcome>>, AllocError>
    ensures { IfOk result (λ outcomes. outcomes.items ≡ replicate count None) }
{
    let mut outcomes = Vec::new(alloc);
    for _ in 0..count {
        outcomes.push(None)?;
    }
    Ok(outcomes)
}
