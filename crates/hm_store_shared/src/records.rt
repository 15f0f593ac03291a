//! The records of the workers of a build.
ghost use Rattle.std.specs.Prelude.{◌≡◌, ◌<◌, ◌≤◌, ◌+◌, IfOk, length, map, vec_len};
ghost use Rattle.hm_store_shared.specs.Gathered.{amount_in, parts_in, records_in, written_in};
ghost use Rattle.hm_store_shared.specs.Passes.{calls_of, worker_of};

use crate::passes::Pass;
use hm_store::laws::shares_count_the_journal;
use hm_store::{Record, Store};
use hm_store_published::Naming;
use std::alloc::{AllocError, Global};
use std::sync::ledger::{Book, Ledger, Share};

// Why: docs/DECISIONS.md, "Records are plain data".
/// The records of passes, in order. Only passes make one, so each record has the calls of its pass and no others.
#[derive(Drop)]
pub struct Records {
    items: Vec<Record>,
}

impl Records {
    // Why: docs/DECISIONS.md, "The total".
    /// Returns the records of all passes of a build, whose store and book these are.
    pub fn of<L: Ledger + Naming>(
        alloc: Global,
        store: &Store,
        book: &mut Book<L>,
        passes: Vec<Pass<L>>,
    ) -> Result<Records, AllocError>
        requires counted { book.old.total ≡ length store.now.journal }
        requires all { (0 < L.parts) × (L.parts ≤ vec_len passes) }
        ensures workers { IfOk result (λ r. map (λ x. x.worker) (records_in r) ≡ map (λ p. worker_of p) passes.items) }
        ensures calls { IfOk result (λ r. map (λ x. x.calls.items) (records_in r) ≡ map (λ p. calls_of p) passes.items) }
        // The journal has as many entries as the calls of the records wrote.
        ensures written { IfOk result (λ r. written_in (records_in r) ≡ length store.now.journal) }
    {
        let (items, all) = gathered(alloc, passes)?;
        let Some(mut all) = all else { unreachable!() };
        shares_count_the_journal(store, book, &mut all);
        Ok(Records { items })
    }

    /// Returns the records.
    pub fn as_slice(&self) -> &[Record]
        ensures { result.now ≡ records_in self.now }
    {
        self.items.as_slice()
    }
}

/// Returns the records of these passes, in order, and the share that counts the entries of all of them. There is none without a pass.
#[tactic(auto, using(crate::proofs::Counting::written_more))]
fn gathered<L: Ledger + Naming>(
    alloc: Global,
    passes: Vec<Pass<L>>,
) -> Result<(Vec<Record>, Option<Share<L>>), AllocError>
    ensures workers { IfOk result (λ r. map (λ x. x.worker) r.0.items ≡ map (λ p. worker_of p) passes.items) }
    ensures calls { IfOk result (λ r. map (λ x. x.calls.items) r.0.items ≡ map (λ p. calls_of p) passes.items) }
    ensures parts { IfOk result (λ r. vec_len passes ≤ parts_in r.1) }
    ensures apart { IfOk result (λ r. parts_in r.1 ≤ L.parts) }
    ensures amount { IfOk result (λ r. amount_in r.1 ≡ written_in r.0.items) }
{
    let mut items = Vec::new(alloc);
    let mut all = None;
    for pass in passes {
        let (record, share) = pass.into_record();
        all = Some(merged(all, share));
        items.push(record)?;
    }
    Ok((items, all))
}

/// Returns this share, with the one before it if there is one.
fn merged<L: Ledger>(before: Option<Share<L>>, mut share: Share<L>) -> Share<L>
    ensures parts { result.parts ≡ parts_in before + share.parts }
    ensures amount { result.amount ≡ amount_in before + share.amount }
    ensures apart { result.parts ≤ L.parts }
{
    let mut all = match before {
        Some(all) => all,
        None => share.empty(),
    };
    all.merge(share);
    all
}
