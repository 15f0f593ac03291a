//! The store behind a lock, for workers with a pass each.
ghost use Rattle.std.specs.Prelude.{◌≡◌, ◌≢◌, ◌≤◌, ◌<◌, ◌+◌, ◌^◌, ◌⊎◌, [], ◌∷◌, ◌++◌, All, None, max, length, not, true, vec_len, IfOk, IfErr, IfSome, IfNone, ℕ, slice_index_or};
ghost use mathlib.Core.List.{IsPrefix};
ghost use Rattle.hm_verdicts.specs.Outcomes.{IsGood};
ghost use Rattle.hm_store_published.specs.Publications.{IsLawful, interface_in, interface_of};
ghost use Rattle.hm_store.specs.declared.object.Refusal.TheVariants.{Memory, Stranger};
ghost use Rattle.left_right.specs.Handles.{published};
ghost use Rattle.hm_store.specs.Builds.{IsLegal, Refuses, after_claim, after_stop, state_of};
ghost use Rattle.hm_store.specs.declared.object.Entry.TheVariants as entry;
ghost use Rattle.hm_store_shared.specs.Knowing.{Answers, Begins, Claims, HasClaimed, IsStopped, Stops};
ghost use Rattle.hm_store_shared.specs.Listings.{FailsIn, HasImports, HasPublication, IsBuildOf, IsListed, IsOfSeen, IsWithin, Settled, one_way};
ghost use Rattle.hm_store.specs.Objects.{reply_of};
ghost use Rattle.hm_store_shared.specs.Passes.{calls_of, known_of, room_of, seen_of, share_of, worker_of};
ghost use Rattle.hm_store.specs.Records.{Adds, AddsAt, act_of, replied};
ghost use Rattle.hm_store.specs.declared.record.Act.TheVariants.{Publish, Fail, Stop};

use crate::dealing::{Crew, SharedFault, Stock, deal};
use crate::listed::{Listed, Offered};
use crate::passes::Pass;
use hm_store::{Act, Claimed, Entry, Refusal, Store, Turn};
use hm_store_journal::{Journal, Unnamed};
use hm_store_published::{Naming, Opened, Published, Step, pages};
use hm_verdicts::Outcome;
use left_right::{Absorb, WriteHandle};
use std::alloc::Global;
use std::sync::ledger::{Blank, Book, Ledger};
use std::sync::{Condvar, Mutex, Wait};

// Why: docs/DECISIONS.md, "What the lock keeps".
/// The data behind the lock: the store with the list of its publications, the book that counts its entries, the list of these, and the copies that
/// look-ups read.
#[derive(Drop)]
pub struct Locked<L: Ledger + Naming, R: Wait + Drop>
where
    Published<L>: Absorb<Step<L>>,
{
    pub listed: Listed<L>,
    book: Book<L>,
    pages: WriteHandle<Published<L>, Step<L>, R>,
    journal: Journal<L>,
    ghost counted: { book.total ≡ length listed.build.journal },
    ghost same: { published pages ≡ listed.published } by { one_way (published pages) listed.published },
    ghost written: { journal.entries ≡ listed.build.journal },
}

/// The ghost tokens that name a build: the ledger of its journal, the list of its publications and that of its entries, all empty.
#[derive(Drop)]
pub struct Brands {
    pub blank: Blank,
    pub opened: Opened,
    pub unnamed: Unnamed,
}

// Why: docs/DECISIONS.md, "The lock's own crate".
/// The store behind a lock, shared by the workers of a build.
///
/// Each call takes the lock, and records itself in the worker's pass. Look-ups take no lock: they are calls of the pass alone.
#[derive(Drop)]
pub struct Shared<L: Ledger + Naming, R: Wait + Drop>
where
    Published<L>: Absorb<Step<L>>,
{
    locked: Mutex<Locked<L, R>>,
    moved: Condvar,
}

impl<L: Ledger + Naming, R: Wait + Drop> Locked<L, R> {
    /// Shows how the store and a pass relate while the lock is held.
    fn beside(&self, pass: &Pass<L>)
        ensures legal { IsLegal self.now.listed.build }
        ensures listed { IsListed self.now.listed.build self.now.listed.published }
        ensures build { IsBuildOf L.modules L.plan self.now.listed.build }
        ensures beside { IsPrefix (seen_of pass.now) self.now.listed.published ⊎ IsPrefix self.now.listed.published (seen_of pass.now) }
    {
        let _entries = self.listed.store().entries();
        pass.beside(self.listed.front());
    }

    /// Claims a module and records the call. Returns `None` if the worker has to wait.
    fn claim_next(&mut self, pass: &mut Pass<L>) -> Option<Turn>
        requires { 0 < room_of pass.old }
        ensures reply { replied result ≡ reply_of self.old.listed.build.given (state_of self.old.listed.build) }
        ensures step { self.new.listed ≡ record {
          build = after_claim self.old.listed.build (worker_of pass.old) (replied result);
          published = self.old.listed.published;
        } }
        ensures imports { IfSome result (λ t. HasImports L.plan t self.new.listed.published) }
        ensures within { IfSome result (λ t. IsWithin (length L.modules) t × IsWithin (length L.plan) t) }
        ensures none { IfNone result (pass.new ≡ pass.old) }
        ensures some { IfSome result (λ t. AddsAt (length self.old.listed.build.journal) (calls_of pass.old) (act_of t) (calls_of pass.new)) }
        ensures worker { IfSome result (λ _. worker_of pass.new ≡ worker_of pass.old) }
        ensures room { IfSome result (λ _. room_of pass.new + 1 ≡ room_of pass.old) }
        ensures parts { IfSome result (λ _. (share_of pass.new).parts ≡ (share_of pass.old).parts) }
        ensures seen { seen_of pass.new ≡ seen_of pass.old }
        ensures begins { IfSome result (λ _. Begins (worker_of pass.old) (known_of pass.old) self.old.listed.build.journal) }
        ensures known { IfSome result (λ _. known_of pass.new ≡ self.new.listed.build.journal) }
    {
        let Locked {
            listed,
            book,
            journal,
            ..
        } = self;
        let worker = pass.worker();
        let entries = listed.store().entries();
        match listed.claim(worker) {
            Claimed::Job(number) => {
                let entry = Entry::Claim {
                    worker,
                    module: number,
                };
                pass.wrote(book, journal, entries, entry);
                Some(Turn::Job(number))
            }
            Claimed::Later => None,
            Claimed::Done => {
                pass.meet(journal);
                pass.read(entries, Act::Done);
                Some(Turn::Done)
            }
        }
    }

    /// Publishes and records the call. Tests the outcome unless it is claimed.
    fn publish_one(
        &mut self,
        pass: &mut Pass<L>,
        number: usize,
        offered: Offered,
    ) -> Result<(), (Refusal, Outcome)>
        requires room { 0 < room_of pass.old }
        requires good { IsGood offered.outcome.verdict }
        requires claimed { offered.is_claimed ≡ true → Refuses self.old.listed.build (worker_of pass.old) number offered.outcome None }
        ensures settles { Settled self.old.listed (worker_of pass.old) number offered.outcome self.new.listed result }
        ensures ok { IfOk result (λ _. AddsAt (length self.old.listed.build.journal) (calls_of pass.old) (Publish number) (calls_of pass.new)) }
        ensures worker { worker_of pass.new ≡ worker_of pass.old }
        ensures room { IfOk result (λ _. room_of pass.new + 1 ≡ room_of pass.old) }
        ensures parts { IfOk result (λ _. (share_of pass.new).parts ≡ (share_of pass.old).parts) }
        ensures calls { IfErr result (λ _. (calls_of pass.new ≡ calls_of pass.old) × (share_of pass.new ≡ share_of pass.old)) }
        ensures refused_room { IfErr result (λ _. room_of pass.new ≡ room_of pass.old) }
        ensures begins { Begins (worker_of pass.old) (known_of pass.old) self.old.listed.build.journal }
        ensures known { known_of pass.new ≡ self.new.listed.build.journal }
        ensures returned { IfErr result (λ r. r.1 ≡ offered.outcome) }
        ensures seen { seen_of pass.new ≡ seen_of pass.old }
        ensures published { IfOk result (λ _. interface_in self.new.listed.published number ≡ interface_of offered.outcome.verdict) }
    {
        let Locked {
            listed,
            book,
            journal,
            pages,
            ..
        } = self;
        let worker = pass.worker();
        let entries = listed.store().entries();
        match listed.publish(pages, worker, number, offered) {
            Ok(()) => {
                let entry = Entry::Publish {
                    worker,
                    module: number,
                };
                pass.wrote(book, journal, entries, entry);
                Ok(())
            }
            Err(refused) => {
                pass.meet(journal);
                Err(refused)
            }
        }
    }

    /// Fails a module and records the call.
    #[tactic(auto, using(crate::proofs::Listing::fails_without_memory))]
    fn fail_one(
        &mut self,
        pass: &mut Pass<L>,
        number: usize,
        outcome: Outcome,
    ) -> Result<(), (Refusal, Outcome)>
        requires room { 0 < room_of pass.old }
        requires faulty { ¬ IsGood outcome.verdict }
        ensures settles { FailsIn self.old.listed (worker_of pass.old) number outcome self.new.listed result }
        ensures refused { IfErr result (λ r. r.0 ≢ Memory) }
        ensures ok { IfOk result (λ _. AddsAt (length self.old.listed.build.journal) (calls_of pass.old) (Fail number) (calls_of pass.new)) }
        ensures worker { worker_of pass.new ≡ worker_of pass.old }
        ensures room { IfOk result (λ _. room_of pass.new + 1 ≡ room_of pass.old) }
        ensures parts { IfOk result (λ _. (share_of pass.new).parts ≡ (share_of pass.old).parts) }
        ensures calls { IfErr result (λ _. (calls_of pass.new ≡ calls_of pass.old) × (share_of pass.new ≡ share_of pass.old)) }
        ensures refused_room { IfErr result (λ _. room_of pass.new ≡ room_of pass.old) }
        ensures begins { Begins (worker_of pass.old) (known_of pass.old) self.old.listed.build.journal }
        ensures known { known_of pass.new ≡ self.new.listed.build.journal }
        ensures returned { IfErr result (λ r. r.1 ≡ outcome) }
        ensures seen { seen_of pass.new ≡ seen_of pass.old }
    {
        let Locked {
            listed,
            book,
            journal,
            ..
        } = self;
        let worker = pass.worker();
        let entries = listed.store().entries();
        match listed.fail(worker, number, outcome) {
            Ok(()) => {
                let entry = Entry::Fail {
                    worker,
                    module: number,
                };
                pass.wrote(book, journal, entries, entry);
                Ok(())
            }
            Err(refused) => {
                pass.meet(journal);
                Err(refused)
            }
        }
    }

    /// Stops the build and records the call.
    fn stop_all(&mut self, pass: &mut Pass<L>) -> bool
        requires { 0 < room_of pass.old }
        ensures reply { result ≡ not (state_of self.old.listed.build).stopped }
        ensures step { self.new.listed ≡ record {
          build = after_stop self.old.listed.build (worker_of pass.old) result;
          published = self.old.listed.published;
        } }
        ensures adds { AddsAt (length self.old.listed.build.journal) (calls_of pass.old) (Stop result) (calls_of pass.new) }
        ensures worker { worker_of pass.new ≡ worker_of pass.old }
        ensures room { room_of pass.new + 1 ≡ room_of pass.old }
        ensures parts { (share_of pass.new).parts ≡ (share_of pass.old).parts }
        ensures seen { seen_of pass.new ≡ seen_of pass.old }
        ensures begins { Begins (worker_of pass.old) (known_of pass.old) self.old.listed.build.journal }
        ensures known { known_of pass.new ≡ self.new.listed.build.journal }
    {
        let Locked {
            listed,
            book,
            journal,
            ..
        } = self;
        let worker = pass.worker();
        let entries = listed.store().entries();
        let first = listed.stop(worker);
        if first {
            pass.wrote(book, journal, entries, Entry::Stop { worker });
        } else {
            pass.meet(journal);
            pass.read(entries, Act::Stop(false));
        }
        first
    }

    /// Claims a module, records the call, and shows the pass all publications. Returns `None` if the worker has to wait.
    fn claim(&mut self, pass: &mut Pass<L>) -> Option<Turn>
        requires { 0 < room_of pass.old }
        ensures reply { replied result ≡ reply_of self.old.listed.build.given (state_of self.old.listed.build) }
        ensures step { self.new.listed ≡ record {
          build = after_claim self.old.listed.build (worker_of pass.old) (replied result);
          published = self.old.listed.published;
        } }
        ensures imports { IfSome result (λ t. HasImports L.plan t (seen_of pass.new)) }
        ensures within { IfSome result (λ t. IsWithin (length L.modules) t × IsWithin (length L.plan) t) }
        ensures none { IfNone result (pass.new ≡ pass.old) }
        ensures some { IfSome result (λ t. AddsAt (length self.old.listed.build.journal) (calls_of pass.old) (act_of t) (calls_of pass.new)) }
        ensures worker { IfSome result (λ _. worker_of pass.new ≡ worker_of pass.old) }
        ensures room { IfSome result (λ _. room_of pass.new + 1 ≡ room_of pass.old) }
        ensures parts { IfSome result (λ _. (share_of pass.new).parts ≡ (share_of pass.old).parts) }
        ensures kept { IfSome result (λ _. IsPrefix (seen_of pass.old) (seen_of pass.new)) }
        ensures told { IfSome result (λ _. IsPrefix self.new.listed.published (seen_of pass.new)) }
        ensures lawful { IfSome result (λ _. IsLawful L.modules L.plan (seen_of pass.new)) }
        ensures claims { IfSome result (λ t. Claims L.modules L.plan (worker_of pass.old) (known_of pass.old) (known_of pass.new) t) }
    {
        self.beside(pass);
        let turn = self.claim_next(pass)?;
        meet(self, pass);
        Some(turn)
    }

    /// Shows the pass all entries of the journal. Records nothing.
    fn show_entries(&mut self, pass: &mut Pass<L>)
        ensures same { self.new.listed ≡ self.old.listed }
        ensures known { known_of pass.new ≡ self.old.listed.build.journal }
        ensures begins { Begins (worker_of pass.old) (known_of pass.old) self.old.listed.build.journal }
        ensures record { (worker_of pass.new ≡ worker_of pass.old) × (calls_of pass.new ≡ calls_of pass.old) × (room_of pass.new ≡ room_of pass.old)
            × (share_of pass.new ≡ share_of pass.old) }
        ensures seen { seen_of pass.new ≡ seen_of pass.old }
    {
        pass.meet(&mut self.journal);
    }

    /// Publishes, records the call, and shows the pass all publications. Tests the outcome unless it is claimed.
    fn publish(
        &mut self,
        pass: &mut Pass<L>,
        number: usize,
        offered: Offered,
    ) -> Result<(), (Refusal, Outcome)>
        requires room { 0 < room_of pass.old }
        requires good { IsGood offered.outcome.verdict }
        requires fits { offered.is_claimed ≡ true → IsOfSeen L.modules L.plan (seen_of pass.old) number offered.outcome }
        requires has { offered.is_claimed ≡ true → HasClaimed (worker_of pass.old) (known_of pass.old) number }
        ensures settles { Settled self.old.listed (worker_of pass.old) number offered.outcome self.new.listed result }
        ensures ok { IfOk result (λ _. AddsAt (length self.old.listed.build.journal) (calls_of pass.old) (Publish number) (calls_of pass.new)) }
        ensures worker { worker_of pass.new ≡ worker_of pass.old }
        ensures room { IfOk result (λ _. room_of pass.new + 1 ≡ room_of pass.old) }
        ensures parts { IfOk result (λ _. (share_of pass.new).parts ≡ (share_of pass.old).parts) }
        ensures err { IfErr result (λ _. (calls_of pass.new ≡ calls_of pass.old) × (share_of pass.new ≡ share_of pass.old)) }
        ensures refused_room { IfErr result (λ _. room_of pass.new ≡ room_of pass.old) }
        ensures returned { IfErr result (λ r. r.1 ≡ offered.outcome) }
        ensures kept { IsPrefix (seen_of pass.old) (seen_of pass.new) }
        ensures told { IsPrefix self.new.listed.published (seen_of pass.new) }
        ensures lawful { IsLawful L.modules L.plan (seen_of pass.new) }
        ensures publication { IfOk result (λ _. (place : ℕ) × AddsAt place (calls_of pass.old) (Publish number) (calls_of pass.new)
            × HasPublication (seen_of pass.new) number place offered.outcome) }
        ensures answers { Answers L.modules L.plan (worker_of pass.old) number offered.outcome (entry.Publish (worker_of pass.old) number) (known_of pass.old) (known_of pass.new) result }
        ensures fits { IsOfSeen L.modules L.plan (seen_of pass.old) number offered.outcome → IfErr result (λ r. r.0 ≢ Stranger) }
        ensures seen { IfOk result (λ _. interface_in (seen_of pass.new) number ≡ interface_of offered.outcome.verdict) }
        ensures memory { offered.is_claimed ≡ true → IfErr result (λ r. r.0 ≡ Memory) }
    {
        self.beside(pass);
        self.show_entries(pass);
        let reply = self.publish_one(pass, number, offered);
        meet(self, pass);
        reply
    }

    /// Fails a module, records the call, and shows the pass all publications.
    fn fail(
        &mut self,
        pass: &mut Pass<L>,
        number: usize,
        outcome: Outcome,
    ) -> Result<(), (Refusal, Outcome)>
        requires room { 0 < room_of pass.old }
        requires faulty { ¬ IsGood outcome.verdict }
        ensures settles { FailsIn self.old.listed (worker_of pass.old) number outcome self.new.listed result }
        ensures refused { IfErr result (λ r. r.0 ≢ Memory) }
        ensures ok { IfOk result (λ _. AddsAt (length self.old.listed.build.journal) (calls_of pass.old) (Fail number) (calls_of pass.new)) }
        ensures worker { worker_of pass.new ≡ worker_of pass.old }
        ensures room { IfOk result (λ _. room_of pass.new + 1 ≡ room_of pass.old) }
        ensures parts { IfOk result (λ _. (share_of pass.new).parts ≡ (share_of pass.old).parts) }
        ensures err { IfErr result (λ _. (calls_of pass.new ≡ calls_of pass.old) × (share_of pass.new ≡ share_of pass.old)) }
        ensures refused_room { IfErr result (λ _. room_of pass.new ≡ room_of pass.old) }
        ensures returned { IfErr result (λ r. r.1 ≡ outcome) }
        ensures kept { IsPrefix (seen_of pass.old) (seen_of pass.new) }
        ensures told { IsPrefix self.new.listed.published (seen_of pass.new) }
        ensures lawful { IsLawful L.modules L.plan (seen_of pass.new) }
        ensures answers { Answers L.modules L.plan (worker_of pass.old) number outcome (entry.Fail (worker_of pass.old) number) (known_of pass.old) (known_of pass.new) result }
        ensures fits { IsOfSeen L.modules L.plan (seen_of pass.old) number outcome → IfErr result (λ r. r.0 ≢ Stranger) }
    {
        self.beside(pass);
        let reply = self.fail_one(pass, number, outcome);
        meet(self, pass);
        reply
    }

    /// Stops the build, records the call, and shows the pass all publications.
    fn stop(&mut self, pass: &mut Pass<L>) -> bool
        requires { 0 < room_of pass.old }
        ensures reply { result ≡ not (state_of self.old.listed.build).stopped }
        ensures step { self.new.listed ≡ record {
          build = after_stop self.old.listed.build (worker_of pass.old) result;
          published = self.old.listed.published;
        } }
        ensures adds { AddsAt (length self.old.listed.build.journal) (calls_of pass.old) (Stop result) (calls_of pass.new) }
        ensures worker { worker_of pass.new ≡ worker_of pass.old }
        ensures room { room_of pass.new + 1 ≡ room_of pass.old }
        ensures parts { (share_of pass.new).parts ≡ (share_of pass.old).parts }
        ensures kept { IsPrefix (seen_of pass.old) (seen_of pass.new) }
        ensures told { IsPrefix self.new.listed.published (seen_of pass.new) }
        ensures lawful { IsLawful L.modules L.plan (seen_of pass.new) }
        ensures stops { Stops L.modules L.plan (worker_of pass.old) (known_of pass.old) (known_of pass.new) result }
        ensures stopped { IsStopped L.modules L.plan (known_of pass.new) }
    {
        self.beside(pass);
        let first = self.stop_all(pass);
        self.beside(pass);
        meet(self, pass);
        first
    }
}

// Why: docs/DECISIONS.md, "meet".
/// Shows the pass all publications of the store. This ends each hold of the lock, and records nothing.
pub fn meet<L: Ledger + Naming, R: Wait + Drop>(locked: &mut Locked<L, R>, pass: &mut Pass<L>)
    ensures kept { IsPrefix (seen_of pass.old) (seen_of pass.new) }
    ensures told { IsPrefix locked.old.listed.published (seen_of pass.new) }
    ensures lawful { IsLawful L.modules L.plan (seen_of pass.new) }
    // The pass sees the longer of the two lists, and nothing else.
    ensures exact { (seen_of pass.new ≡ seen_of pass.old) ⊎ (seen_of pass.new ≡ locked.old.listed.published) }
    ensures record { (worker_of pass.new ≡ worker_of pass.old) × (calls_of pass.new ≡ calls_of pass.old) × (room_of pass.new ≡ room_of pass.old)
        × (share_of pass.new ≡ share_of pass.old) }
    ensures known { known_of pass.new ≡ known_of pass.old }
    ensures same { locked.new ≡ locked.old }
{
    pass.learn(locked.listed.front());
}

impl<L: Ledger + Naming, R: Wait + Drop> Shared<L, R> {
    // Why: docs/DECISIONS.md, "Sums".
    /// Returns the store behind a lock, and a pass for each worker.
    ///
    /// # Errors
    ///
    /// `Memory` if memory ran out, and `NoReader` if no reader of the published interfaces could be made.
    pub fn new(
        alloc: Global,
        rt: R,
        store: Store,
        crew: Crew,
        brands: Brands,
    ) -> Result<(Shared<L, R>, Vec<Pass<L>>), SharedFault>
        requires brand { (brands.blank.name ≡ L.name) × (brands.blank.parts ≡ L.parts) × (brands.blank.parts ≡ crew.workers) }
        requires list { brands.opened.seen.book ≡ L.book }
        requires table { brands.unnamed.seat.table_id ≡ L.table }
        requires modules { store.modules ≡ L.modules }
        requires plan { store.given.imports ≡ L.plan }
        requires workers { (0 < crew.workers) × (crew.workers ≤ 16) }
        requires empty { store.journal ≡ [] }
        requires room { crew.room < 2 ^ 62 }
        ensures count { IfOk result (λ r. vec_len r.1 ≡ crew.workers) }
        ensures worker { IfOk result (λ r. (k : ℕ) (d : _) → k < crew.workers → worker_of (slice_index_or r.1.items k d) ≡ k) }
        ensures room { IfOk result (λ r. All (λ p. room_of p ≡ crew.room) r.1.items) }
        ensures empty { IfOk result (λ r. All (λ p. calls_of p ≡ []) r.1.items) }
        ensures parts { IfOk result (λ r. All (λ p. (share_of p).parts ≡ 1) r.1.items) }
        ensures seen { IfOk result (λ r. All (λ p. seen_of p ≡ []) r.1.items) }
        ensures known { IfOk result (λ r. All (λ p. known_of p ≡ []) r.1.items) }
    {
        let _entries = store.entries();
        let Brands {
            blank,
            opened,
            unnamed,
        } = brands;
        let (book, rest) = blank.open::<L>();
        let (history, front) = opened.named::<L>();
        let pages = pages::opened(alloc, rt, &front, store.modules().len(), crew.workers)?;
        let stock = Stock {
            rest,
            journal: unnamed.named::<L>(),
        };
        let (passes, journal) = deal(alloc, crew, stock, &pages, &front)?;
        let locked = Mutex::new(Locked {
            listed: Listed::new(store, front, history),
            book,
            pages,
            journal,
        });
        let shared = Shared {
            locked,
            moved: Condvar::new(),
        };
        Ok((shared, passes))
    }

    /// Claims a module to check. Waits while no module is ready but a claimed one may make others ready.
    pub fn claim<W: Wait>(&self, rt: &W, pass: &mut Pass<L>) -> Turn
        requires { 0 < room_of pass.old }
        ensures adds { Adds (calls_of pass.old) (act_of result) (calls_of pass.new) }
        ensures worker { worker_of pass.new ≡ worker_of pass.old }
        ensures room { room_of pass.new + 1 ≡ room_of pass.old }
        ensures parts { (share_of pass.new).parts ≡ (share_of pass.old).parts }
        ensures imports { HasImports L.plan result (seen_of pass.new) }
        ensures within { IsWithin (length L.modules) result × IsWithin (length L.plan) result }
        ensures kept { IsPrefix (seen_of pass.old) (seen_of pass.new) }
        ensures lawful { IsLawful L.modules L.plan (seen_of pass.new) }
        // After a journal that begins with what the worker had seen, the build object gives this reply. The worker has then seen this journal and its claim.
        ensures claims { Claims L.modules L.plan (worker_of pass.old) (known_of pass.old) (known_of pass.new) result }
    {
        let mut locked = self.locked.lock(rt);
        for _ in rt.forever() {
            if let Some(turn) = locked.claim(pass) {
                return turn;
            }
            locked = self.moved.wait(rt, locked);
        }
        unreachable!()
    }

    /// Publishes the interface of a module that this worker has claimed, and wakes the workers that wait.
    ///
    /// # Errors
    ///
    /// Returns the outcome; the store and the pass's record are unchanged. In this order:
    /// - `NotYours` if the worker hasn't claimed the module.
    /// - `Stranger` if the outcome isn't of that module, or isn't for the published interfaces of its imports.
    /// - `Memory` if an allocation failed: the copy of an `Arc`, the log of operations, or the copies that readers take. If the log or the copies
    ///   failed, each later publication that passes the first two tests returns `Memory` too.
    pub fn publish<W: Wait>(
        &self,
        rt: &W,
        pass: &mut Pass<L>,
        number: usize,
        outcome: Outcome,
    ) -> Result<(), (Refusal, Outcome)>
        requires room { 0 < room_of pass.old }
        requires good { IsGood outcome.verdict }
        ensures ok { IfOk result (λ _. Adds (calls_of pass.old) (Publish number) (calls_of pass.new)) }
        ensures worker { worker_of pass.new ≡ worker_of pass.old }
        ensures room { IfOk result (λ _. room_of pass.new + 1 ≡ room_of pass.old) }
        ensures parts { IfOk result (λ _. (share_of pass.new).parts ≡ (share_of pass.old).parts) }
        // A refused call changes neither the record nor the room.
        ensures err { IfErr result (λ _. (calls_of pass.new ≡ calls_of pass.old) × (share_of pass.new ≡ share_of pass.old)) }
        ensures refused_room { IfErr result (λ _. room_of pass.new ≡ room_of pass.old) }
        ensures returned { IfErr result (λ r. r.1 ≡ outcome) }
        ensures kept { IsPrefix (seen_of pass.old) (seen_of pass.new) }
        ensures lawful { IsLawful L.modules L.plan (seen_of pass.new) }
        // The pass sees this publication, with its outcome and with the place in the journal at which the call is recorded.
        ensures publication { IfOk result (λ _. (place : ℕ) × AddsAt place (calls_of pass.old) (Publish number) (calls_of pass.new)
            × HasPublication (seen_of pass.new) number place outcome) }
        // After a journal that begins with what the worker had seen, the build object takes the outcome, or gives this reason; it gives none for `Memory`.
        // The worker has then seen this journal, and its entry if the outcome was taken.
        ensures answers { Answers L.modules L.plan (worker_of pass.old) number outcome (entry.Publish (worker_of pass.old) number) (known_of pass.old) (known_of pass.new) result }
        // An outcome of the module for the interfaces that the pass has seen of its imports is never refused as `Stranger`.
        ensures fits { IsOfSeen L.modules L.plan (seen_of pass.old) number outcome → IfErr result (λ r. r.0 ≢ Stranger) }
        ensures seen { IfOk result (λ _. interface_in (seen_of pass.new) number ≡ interface_of outcome.verdict) }
    {
        let offered = Offered {
            outcome,
            is_claimed: false,
        };
        let reply = self.locked.lock(rt).publish(pass, number, offered);
        self.moved.notify_all();
        reply
    }

    // Why: docs/DECISIONS.md, "Claimed outcomes".
    /// Does what `publish` does, without a test of the outcome: it is that of a module that this worker has claimed, for the interfaces that the pass
    /// has seen of its imports. So no tree and no interface is compared while the lock is held.
    ///
    /// # Errors
    ///
    /// `Memory` with the outcome, as for `publish`.
    pub fn publish_claimed<W: Wait>(
        &self,
        rt: &W,
        pass: &mut Pass<L>,
        number: usize,
        outcome: Outcome,
    ) -> Result<(), (Refusal, Outcome)>
        requires room { 0 < room_of pass.old }
        requires good { IsGood outcome.verdict }
        requires fits { IsOfSeen L.modules L.plan (seen_of pass.old) number outcome }
        requires has { HasClaimed (worker_of pass.old) (known_of pass.old) number }
        // Only memory can be missing.
        ensures memory { IfErr result (λ r. r.0 ≡ Memory) }
        ensures ok { IfOk result (λ _. Adds (calls_of pass.old) (Publish number) (calls_of pass.new)) }
        ensures worker { worker_of pass.new ≡ worker_of pass.old }
        ensures room { IfOk result (λ _. room_of pass.new + 1 ≡ room_of pass.old) }
        ensures parts { IfOk result (λ _. (share_of pass.new).parts ≡ (share_of pass.old).parts) }
        // A refused call changes neither the record nor the room.
        ensures err { IfErr result (λ _. (calls_of pass.new ≡ calls_of pass.old) × (share_of pass.new ≡ share_of pass.old)) }
        ensures refused_room { IfErr result (λ _. room_of pass.new ≡ room_of pass.old) }
        ensures returned { IfErr result (λ r. r.1 ≡ outcome) }
        ensures kept { IsPrefix (seen_of pass.old) (seen_of pass.new) }
        ensures lawful { IsLawful L.modules L.plan (seen_of pass.new) }
        // The pass sees this publication, with its outcome and with the place in the journal at which the call is recorded.
        ensures publication { IfOk result (λ _. (place : ℕ) × AddsAt place (calls_of pass.old) (Publish number) (calls_of pass.new)
            × HasPublication (seen_of pass.new) number place outcome) }
        // After a journal that begins with what the worker had seen, the build object takes the outcome, or gives this reason; it gives none for `Memory`.
        // The worker has then seen this journal, and its entry if the outcome was taken.
        ensures answers { Answers L.modules L.plan (worker_of pass.old) number outcome (entry.Publish (worker_of pass.old) number) (known_of pass.old) (known_of pass.new) result }
        ensures seen { IfOk result (λ _. interface_in (seen_of pass.new) number ≡ interface_of outcome.verdict) }
    {
        let offered = Offered {
            outcome,
            is_claimed: true,
        };
        let reply = self.locked.lock(rt).publish(pass, number, offered);
        self.moved.notify_all();
        reply
    }

    /// Stops the build: each later claim returns `Done`. Returns true the first time.
    pub fn stop<W: Wait>(&self, rt: &W, pass: &mut Pass<L>) -> bool
        requires { 0 < room_of pass.old }
        ensures adds { Adds (calls_of pass.old) (Stop result) (calls_of pass.new) }
        ensures worker { worker_of pass.new ≡ worker_of pass.old }
        ensures room { room_of pass.new + 1 ≡ room_of pass.old }
        ensures parts { (share_of pass.new).parts ≡ (share_of pass.old).parts }
        ensures kept { IsPrefix (seen_of pass.old) (seen_of pass.new) }
        ensures lawful { IsLawful L.modules L.plan (seen_of pass.new) }
        // After a journal that begins with what the worker had seen, the build object gives this reply. The worker has then seen this journal and its stop.
        ensures stops { Stops L.modules L.plan (worker_of pass.old) (known_of pass.old) (known_of pass.new) result }
        // The build is stopped, by this call or by one before.
        ensures stopped { IsStopped L.modules L.plan (known_of pass.new) }
    {
        let first = self.locked.lock(rt).stop(pass);
        self.moved.notify_all();
        first
    }

    /// Fails a module that this worker has claimed, and wakes the workers that wait.
    ///
    /// # Errors
    ///
    /// `NotYours` or `Stranger`, as for `publish`. It never returns `Memory`.
    pub fn fail<W: Wait>(
        &self,
        rt: &W,
        pass: &mut Pass<L>,
        number: usize,
        outcome: Outcome,
    ) -> Result<(), (Refusal, Outcome)>
        requires room { 0 < room_of pass.old }
        requires faulty { ¬ IsGood outcome.verdict }
        ensures refused { IfErr result (λ r. r.0 ≢ Memory) }
        ensures ok { IfOk result (λ _. Adds (calls_of pass.old) (Fail number) (calls_of pass.new)) }
        ensures worker { worker_of pass.new ≡ worker_of pass.old }
        ensures room { IfOk result (λ _. room_of pass.new + 1 ≡ room_of pass.old) }
        ensures parts { IfOk result (λ _. (share_of pass.new).parts ≡ (share_of pass.old).parts) }
        // A refused call changes neither the record nor the room.
        ensures err { IfErr result (λ _. (calls_of pass.new ≡ calls_of pass.old) × (share_of pass.new ≡ share_of pass.old)) }
        ensures refused_room { IfErr result (λ _. room_of pass.new ≡ room_of pass.old) }
        ensures returned { IfErr result (λ r. r.1 ≡ outcome) }
        ensures kept { IsPrefix (seen_of pass.old) (seen_of pass.new) }
        ensures lawful { IsLawful L.modules L.plan (seen_of pass.new) }
        // After a journal that begins with what the worker had seen, the build object takes the outcome, or gives this reason; it gives none for `Memory`.
        // The worker has then seen this journal, and its entry if the outcome was taken.
        ensures answers { Answers L.modules L.plan (worker_of pass.old) number outcome (entry.Fail (worker_of pass.old) number) (known_of pass.old) (known_of pass.new) result }
        // An outcome of the module for the interfaces that the pass has seen of its imports is never refused as `Stranger`.
        ensures fits { IsOfSeen L.modules L.plan (seen_of pass.old) number outcome → IfErr result (λ r. r.0 ≢ Stranger) }
    {
        let reply = self.locked.lock(rt).fail(pass, number, outcome);
        self.moved.notify_all();
        reply
    }

    /// Returns the store, and the book whose total is the number of its entries.
    pub fn into_store(self) -> (Store, Book<L>)
        ensures total { result.1.total ≡ length result.0.journal }
        ensures modules { result.0.modules ≡ L.modules }
        ensures plan { result.0.given.imports ≡ L.plan }
    {
        let Shared { locked, moved: _ } = self;
        let Locked { listed, book, .. } = locked.into_inner();
        (listed.into_store(), book)
    }
}
