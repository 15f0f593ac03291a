//! The rule of the list of entries, and its steps.
ghost use Rattle.std.specs.Prelude.{Bool, List, Option, ℕ};
ghost use Rattle.std.specs.Borrow.{ftrue};
ghost use Rattle.hm_store.specs.declared.object.Entry.{Entry};

use atomic_table::{Join, Play, Split, TableRule};
use hm_store::Entry;
use std::marker::Model;

/// What a token has seen. No value of it is made.
pub struct View {
    // It is that of the lock, which has the whole list.
    pub ghost main: { Bool },
    pub ghost seen: { List Entry },
    // What another token had seen that was joined to it.
    pub ghost told: { List Entry },
    // The number of workers that have got a token, if it is that of the lock.
    pub ghost hired: { ℕ },
    // The worker whose token it is, and all entries of this worker.
    pub ghost own: { Option (ℕ × List Entry) },
}

impl Model for View {
    ghost also_owns = { λ _. ftrue };
}

/// Each view is a prefix of that of the lock, and has all entries of its worker.
pub struct Law;

impl TableRule<Entry, View, ()> for Law {
    ghost use Rattle.hm_store_journal.specs.Rules.{IsKept, opened};

    ghost holds = { λ _. IsKept };

    ghost first = { λ _. opened };
}

/// A step that adds an entry.
pub struct Append;

impl Play<Entry, View> for Append {
    ghost use Rattle.hm_store_journal.specs.Rules.{Appends};

    ghost then = { Appends };
}

/// A step that makes the token of the next worker.
pub struct Hire;

impl Play<Entry, View> for Hire {
    ghost use Rattle.hm_store_journal.specs.Rules.{Hires};

    ghost then = { Hires };
}

/// A step that compares the two lists of a view.
pub struct Compare;

impl Play<Entry, View> for Compare {
    ghost use Rattle.hm_store_journal.specs.Rules.{Compares};

    ghost then = { Compares };
}

/// A copy of what a token has seen, without a worker.
pub struct Tell;

impl Split<View> for Tell {
    ghost use Rattle.hm_store_journal.specs.Rules.{copy};

    ghost left = { λ v. v };

    ghost right = { copy };
}

/// A worker's token is joined to that of the lock.
pub struct Take;

impl Join<View> for Take {
    ghost use Rattle.hm_store_journal.specs.Rules.{joined, nothing};

    ghost both = { joined };

    ghost spent = { nothing };
}

/// The lock gives the worker's token back.
pub struct Give;

impl Split<View> for Give {
    ghost use Rattle.hm_store_journal.specs.Rules.{with_own, without_own};

    ghost left = { without_own };

    ghost right = { with_own };
}
