//! Makes the passes of the workers that share a store.
ghost use Rattle.std.specs.Prelude.{◌≡◌, ◌<◌, ◌^◌, [], ℕ, All, IfOk, slice_index_or, vec_len};
ghost use Rattle.hm_store_shared.specs.Passes.{calls_of, known_of, room_of, seen_of, share_of, worker_of};

use crate::passes::Pass;
use hm_store_journal::Journal;
use hm_store_published::{Front, Naming, Published, Step, pages};
use left_right::WriteHandle;
use std::alloc::{AllocError, Global};
use std::sync::Wait;
use std::sync::ledger::{Ledger, Share};
use thiserror::Error;

/// The number of workers of a build, and the number of calls that each may make.
#[derive(Clone, Copy, Debug)]
pub struct Crew {
    pub workers: usize,
    pub room: usize,
}

/// Why a store can't be shared.
#[derive(Clone, Copy, Debug, Error, PartialEq, Eq)]
pub enum SharedFault {
    /// Memory ran out.
    #[error("no memory")]
    Memory,
    /// No reader of the published interfaces could be made.
    #[error("no reader")]
    NoReader,
}

impl From<AllocError> for SharedFault {
    ghost use Rattle.std.specs.Prelude.{◌≡◌};
    ghost use Rattle.hm_store_shared.specs.declared.dealing.SharedFault.TheVariants.{Memory};

    ghost from_gives = { λ _ fault. fault ≡ Memory };

    fn from(_error: AllocError) -> SharedFault {
        SharedFault::Memory
    }
}

/// What each pass gets its part of: the ledger and the journal.
#[derive(Drop)]
pub(crate) struct Stock<L: Ledger + Naming> {
    pub rest: Share<L>,
    pub journal: Journal<L>,
}

/// Returns a pass for each worker, each with its part of the ledger and its token of the journal. Returns the journal, too.
pub(crate) fn deal<L: Ledger + Naming, R: Wait + Drop>(
    alloc: Global,
    crew: Crew,
    stock: Stock<L>,
    pages: &WriteHandle<Published<L>, Step<L>, R>,
    front: &Front<L>,
) -> Result<(Vec<Pass<L>>, Journal<L>), SharedFault>
    requires share { (stock.rest.parts ≡ crew.workers) × (stock.rest.amount ≡ 0) }
    requires journal { (stock.journal.entries ≡ []) × (stock.journal.workers ≡ 0) }
    requires room { crew.room < 2 ^ 62 }
    ensures count { IfOk result (λ r. vec_len r.0 ≡ crew.workers) }
    ensures worker { IfOk result (λ r. (k : ℕ) (d : _) → k < crew.workers → worker_of (slice_index_or r.0.items k d) ≡ k) }
    ensures room { IfOk result (λ r. All (λ p. room_of p ≡ crew.room) r.0.items) }
    ensures empty { IfOk result (λ r. All (λ p. calls_of p ≡ []) r.0.items) }
    ensures parts { IfOk result (λ r. All (λ p. (share_of p).parts ≡ 1) r.0.items) }
    ensures seen { IfOk result (λ r. All (λ p. seen_of p ≡ front.now) r.0.items) }
    ensures known { IfOk result (λ r. All (λ p. known_of p ≡ []) r.0.items) }
    ensures journal { IfOk result (λ r. r.1.entries ≡ []) }
{
    let Stock {
        mut rest,
        mut journal,
    } = stock;
    let mut passes = Vec::new(alloc);
    for worker in 0..crew.workers {
        let share = rest.split_off(1, 0);
        let reader = match pages::reader(pages, front) {
            Ok(reader) => reader,
            Err(AllocError) => return Err(SharedFault::NoReader),
        };
        let token = journal.enlist(worker);
        let pass = Pass::new(alloc, crew.room, token, share, reader)?;
        match passes.push(pass) {
            Ok(()) => {}
            Err(failed) => return Err(AllocError::from(failed).into()),
        }
    }
    Ok((passes, journal))
}
