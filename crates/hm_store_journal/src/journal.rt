//! The list of all entries, and the workers' tokens.
ghost use Rattle.std.specs.Prelude.{◌≡◌, ◌+◌, ◌++◌, ◌∷◌, []};
ghost use mathlib.Core.List.{IsPrefix};
ghost use Rattle.hm_store_journal.specs.Entries.{by, writer_of};
ghost use Rattle.hm_store_journal.specs.Rules.{opened};

use crate::rule::{Append, Compare, Give, Hire, Law, Take, Tell, View};
use atomic_table::{Seat, Table};
use hm_store::Entry;
use hm_store_published::Naming;
use std::alloc::{AllocError, Global};
use std::marker::{Model, PhantomData};
use std::mem;

/// An empty list without a name.
#[derive(Drop)]
pub struct Unnamed {
    table: Table<Entry, View, (), Law, Global>,
    pub seat: Seat<Entry, View>,
    pub ghost fits: { seat.table_id ≡ table.shared.table_id },
    pub ghost one: { table.shared.table_id.words ≡ 1 },
    pub ghost empty: { seat.me ≡ (opened, []) },
}

impl Unnamed {
    /// Returns an empty list.
    #[tactic(auto, using(crate::proofs::Keeping::opens))]
    pub fn new(alloc: Global) -> Result<Unnamed, AllocError> {
        let (table, seat) = Table::of_words(alloc, &[0], &())?;
        Ok(Unnamed { table, seat })
    }

    /// Returns the list under a name. No worker has a token yet.
    pub fn named<J: Naming>(self) -> Journal<J>
        requires { self.seat.table_id ≡ J.table }
        ensures { result ≡ record { entries = []; workers = 0 } }
    {
        let Unnamed { table, seat } = self;
        Journal {
            table,
            seat,
            of: PhantomData,
        }
    }
}

// Why: docs/DECISIONS.md, "The list of entries".
/// The whole list, which the lock has. Contracts see its entries, and the number of workers that have a token.
#[derive(Drop)]
pub struct Journal<J: Naming> {
    table: Table<Entry, View, (), Law, Global>,
    seat: Seat<Entry, View>,
    of: PhantomData<J>,
}

impl<J: Naming> Model for Journal<J> {
    ghost use Rattle.std.specs.Prelude.{◌≡◌, [], true, None};
    ghost use Rattle.std.specs.Coded.{codes};
    ghost use Rattle.hm_store_journal.specs.Entries.{Whole};

    ghost Value = { Whole };

    ghost coded = { Prim.hlevel codes };

    ghost view = { λ j. record { entries = j.seat.me.0.seen; workers = j.seat.me.0.hired } };

    ghost invariant = { λ j. (j.seat.table_id ≡ j.table.shared.table_id) × (j.seat.table_id ≡ J.table) × (j.table.shared.table_id.words ≡ 1) × (j.seat.me.0.main ≡ true) × (j.seat.me.1 ≡ []) × (j.seat.me.0.own ≡ None) };
}

/// A worker's token: it has seen a prefix of the list. Contracts see its worker and these entries.
///
/// There is one for each worker, and only with it an entry of this worker is added.
#[derive(Drop)]
pub struct Known<J: Naming> {
    worker: usize,
    seat: Seat<Entry, View>,
    of: PhantomData<J>,
}

impl<J: Naming> Model for Known<J> {
    ghost use Rattle.std.specs.Prelude.{◌≡◌, [], false, Some};
    ghost use Rattle.std.specs.Coded.{codes};
    ghost use Rattle.hm_store_journal.specs.Entries.{Seen, by};

    ghost Value = { Seen };

    ghost coded = { Prim.hlevel codes };

    ghost view = { λ k. record { worker = k.worker; entries = k.seat.me.0.seen } };

    ghost invariant = { λ k. (k.seat.table_id ≡ J.table) × (k.seat.me.0.main ≡ false) × (k.seat.me.1 ≡ []) × (k.seat.me.0.own ≡ Some (k.worker, by k.worker k.seat.me.0.seen)) };
}

impl<J: Naming> Known<J> {
    /// Returns the worker's number.
    pub fn worker(&self) -> usize
        ensures { result ≡ self.now.worker }
    {
        self.worker
    }
}

impl<J: Naming> Journal<J> {
    /// Returns the token of the next worker.
    pub fn enlist(&mut self, worker: usize) -> Known<J>
        requires { worker ≡ self.old.workers }
        ensures same { self.new ≡ record { entries = self.old.entries; workers = self.old.workers + 1 } }
        ensures seen { result ≡ record { worker = worker; entries = self.old.entries } }
    {
        let Journal { table, seat, of: _ } = self;
        table.shared.load::<Hire>(seat, 0);
        Known {
            worker,
            seat: table.shared.split_seat::<Give>(seat),
            of: PhantomData,
        }
    }

    /// Adds an entry of this worker, whose token has then seen the whole list. No other call has added an entry of the worker.
    pub fn add(&mut self, known: &mut Known<J>, entry: Entry)
        requires { writer_of entry ≡ known.old.worker }
        ensures added { self.new ≡ record { entries = self.old.entries ++ entry ∷ []; workers = self.old.workers } }
        ensures told { known.new ≡ record { worker = known.old.worker; entries = self.old.entries ++ entry ∷ [] } }
        ensures begun { IsPrefix known.old.entries self.old.entries }
        ensures own { by known.old.worker self.old.entries ≡ by known.old.worker known.old.entries }
    {
        let Journal { table, seat, of: _ } = self;
        let Known { seat: own, .. } = known;
        let spare = table.shared.split_seat::<Tell>(seat);
        let other = mem::replace(own, spare);
        table.shared.join_seat::<Take>(seat, other);
        table.shared.load::<Compare>(seat, 0);
        table
            .shared
            .compare_exchange_with::<Append>(seat, 0, 0, 0, &entry);
        *own = table.shared.split_seat::<Give>(seat);
    }

    /// Shows a worker's token the whole list. What it had seen is a prefix of it, and has all entries of the worker.
    pub fn meet(&mut self, known: &mut Known<J>)
        ensures same { self.new ≡ self.old }
        ensures told { known.new ≡ record { worker = known.old.worker; entries = self.old.entries } }
        ensures begun { IsPrefix known.old.entries self.old.entries }
        ensures own { by known.old.worker self.old.entries ≡ by known.old.worker known.old.entries }
    {
        let Journal { table, seat, of: _ } = self;
        let Known { seat: own, .. } = known;
        let spare = table.shared.split_seat::<Tell>(seat);
        let other = mem::replace(own, spare);
        table.shared.join_seat::<Take>(seat, other);
        table.shared.load::<Compare>(seat, 0);
        *own = table.shared.split_seat::<Give>(seat);
    }
}
