//! A store with the list of its publications.
ghost use Rattle.std.specs.Prelude.{◌≡◌, ◌++◌, ◌∷◌, [], None, length, not, true};
ghost use Rattle.hm_verdicts.specs.Outcomes.{IsGood};
ghost use Rattle.hm_store.specs.Builds.{IsLegal, Refuses, after_claim, after_stop, state_of};
ghost use Rattle.hm_store_shared.specs.Listings.{FailsIn, IsBuildOf, IsListed, Settled, published_after};
ghost use Rattle.hm_store.specs.Objects.{reply_of};
ghost use Rattle.left_right.specs.Handles.{published};
ghost use Rattle.hm_store.specs.declared.object.Entry.TheVariants.{Publish};

use hm_store::{Claimed, Refusal, Store};
use hm_store_published::pages::publish;
use hm_store_published::{Front, History, Naming, Publication, Published, Step};
use hm_verdicts::{Outcome, steps_settle_a_set};
use left_right::WriteHandle;
use std::marker::Model;
use std::sync::Wait;

/// An outcome to publish.
#[derive(Drop)]
pub(crate) struct Offered {
    pub outcome: Outcome,
    /// Whether a proof says that the store accepts it, so that it isn't tested.
    pub is_claimed: bool,
}

/// A store with the list of its publications. The type guarantees that they are those of the journal, and that the store has the modules and the
/// plan of the ghost name.
#[derive(Drop)]
pub struct Listed<J: Naming> {
    store: Store,
    front: Front<J>,
    history: History<J>,
}

impl<J: Naming> Model for Listed<J> {
    ghost use Rattle.std.specs.Coded.{codes};
    ghost use Rattle.hm_syntax.specs.Codes.{coded_declaration};
    ghost use Rattle.hm_types.specs.Interfaces.{coded_exports};
    ghost use Rattle.hm_store_shared.specs.Listings.{IsBuildOf, IsListed, Listing};

    ghost Value = { Listing };

    ghost coded = { Prim.hlevel (codes, coded_declaration, coded_exports) };

    ghost view = { λ l. record { build = l.store; published = l.front } };

    ghost invariant = { λ l. IsListed l.store l.front × IsBuildOf J.modules J.plan l.store };
}

impl<J: Naming> Listed<J> {
    /// Returns the list for a store in which nothing is published.
    pub(crate) fn new(store: Store, front: Front<J>, history: History<J>) -> Listed<J>
        requires listed { IsListed store front }
        requires build { IsBuildOf J.modules J.plan store }
        ensures { result ≡ record { build = store; published = front } }
    {
        Listed {
            store,
            front,
            history,
        }
    }

    /// Returns the store.
    pub fn store(&self) -> &Store
        ensures store { result.now ≡ self.now.build }
        ensures listed { IsListed self.now.build self.now.published }
        ensures build { IsBuildOf J.modules J.plan self.now.build }
    {
        &self.store
    }

    /// Returns the store by value.
    pub(crate) fn into_store(self) -> Store
        ensures store { result ≡ self.build }
        ensures build { IsBuildOf J.modules J.plan result }
    {
        let Listed { store, .. } = self;
        store
    }

    /// Claims a module.
    pub(crate) fn claim(&mut self, worker: usize) -> Claimed
        ensures reply { result ≡ reply_of self.old.build.given (state_of self.old.build) }
        ensures step { self.new ≡ record { build = after_claim self.old.build worker result; published = self.old.published } }
    {
        self.store.claim(worker)
    }

    /// Returns why the store refuses an outcome. Doesn't test one that is claimed.
    fn refusal(
        &self,
        worker: usize,
        number: usize,
        outcome: &Outcome,
        is_claimed: bool,
    ) -> Option<Refusal>
        requires claimed { is_claimed ≡ true → Refuses self.now.build worker number outcome.now None }
        ensures { Refuses self.now.build worker number outcome.now result }
    {
        if is_claimed {
            return None;
        }
        self.store.refusal(worker, number, outcome)
    }

    // Why: docs/DECISIONS.md, "List before log".
    /// Publishes for look-ups, and then in the store.
    pub(crate) fn publish<R: Wait + Drop>(
        &mut self,
        pages: &mut WriteHandle<Published<J>, Step<J>, R>,
        worker: usize,
        number: usize,
        offered: Offered,
    ) -> Result<(), (Refusal, Outcome)>
        requires good { IsGood offered.outcome.verdict }
        requires claimed { offered.is_claimed ≡ true → Refuses self.old.build worker number offered.outcome None }
        requires same { published pages.old ≡ self.old.published }
        ensures step { Settled self.old worker number offered.outcome self.new result }
        ensures same { published pages.new ≡ self.new.published }
    {
        let Offered {
            outcome,
            is_claimed,
        } = offered;
        if let Some(refusal) = self.refusal(worker, number, &outcome, is_claimed) {
            return Err((refusal, outcome));
        }
        steps_settle_a_set();
        let _right = outcome.verdict();
        let place = self.store.entries();
        let publication = Publication {
            number,
            place,
            outcome,
        };
        let Ok(front) = publish(pages, &self.history, &self.front, &publication) else {
            return Err((Refusal::Memory, publication.outcome));
        };
        self.front = front;
        self.store
            .publish_fitting(worker, number, publication.outcome);
        Ok(())
    }

    /// Returns the list that look-ups read.
    pub(crate) fn front(&self) -> &Front<J>
        ensures { result.now ≡ self.now.published }
    {
        &self.front
    }

    /// Fails a module.
    pub(crate) fn fail(
        &mut self,
        worker: usize,
        number: usize,
        outcome: Outcome,
    ) -> Result<(), (Refusal, Outcome)>
        requires { ¬ IsGood outcome.verdict }
        ensures { FailsIn self.old worker number outcome self.new result }
    {
        let _entries = self.store.entries();
        self.store.fail(worker, number, outcome)
    }

    /// Stops the build.
    pub(crate) fn stop(&mut self, worker: usize) -> bool
        ensures reply { result ≡ not (state_of self.old.build).stopped }
        ensures step { self.new ≡ record { build = after_stop self.old.build worker result; published = self.old.published } }
    {
        self.store.stop(worker)
    }
}
