//! The status of each module in a settled set.
ghost use Rattle.std.specs.Prelude.{◌≡◌, ◌<◌, IfOk, length};
ghost use Rattle.hm_store.specs.Settlements.{settlement};
ghost use Rattle.hm_build_reports.specs.Settling.{status_of, statuses_of};

use hm_names::Fault;
use hm_store::Store;
use hm_syntax::Row;
use hm_types::Interface;
use hm_verdicts::Verdict;
use std::alloc::{AllocError, Global};

/// The status of a module in a settled set.
#[derive(Clone, Copy)]
pub enum Settled<'a> {
    /// It is good. Has its interface.
    Published(&'a Interface),
    /// It has these faults.
    Failed(&'a Row<Fault>),
    /// It imports a module that isn't published.
    Skipped,
}

/// Returns the status of a module of a store.
fn settled_at(store: &Store, number: usize) -> Settled<'_>
    requires { number < length store.now.modules }
    ensures { status_of result ≡ settlement store.now number }
{
    match store.verdict(number) {
        Some(Verdict::Good(interface)) => Settled::Published(interface),
        Some(Verdict::Faulty(faults)) => Settled::Failed(faults),
        None => Settled::Skipped,
    }
}

/// Returns the status of each module of a store.
pub fn settled_in(alloc: Global, store: &Store) -> Result<Vec<Settled<'_>>, AllocError>
    ensures len { IfOk result (λ settled. length settled.items ≡ length store.now.modules) }
    ensures settled { IfOk result (λ settled. statuses_of settled.items ≡ settlement store.now) }
{
    // The journal is legal, so numbers that no module has are without outcomes.
    store.legal();
    let mut settled = Vec::new(alloc);
    for number in 0..store.modules().len() {
        settled.push(settled_at(store, number))?;
    }
    Ok(settled)
}
