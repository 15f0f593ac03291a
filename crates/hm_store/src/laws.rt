//! Laws of legal builds and of their workers' records. Each law is a function with an empty body, and its contract is the law.
ghost use Rattle.std.specs.Prelude.{◌≡◌, length};
ghost use Rattle.hm_store.specs.Settlements.{SettledBuildIsSettled};
ghost use Rattle.hm_store.specs.Worked.{DependentsRow, LeastRow, LegalRow, NotAllowedRow, PlacesRow, RecordRow, RefusalRow, RepliesRow, SkipRow, StepsRow, StopRow, StrangerRow, TwoRecordsRow};

use crate::store::Store;
use std::sync::ledger::{Book, Ledger, Share};

/// If all modules of a legal build are settled, each has its right result. Its outcome is for the published interfaces of its imports, or it is
/// skipped because an import isn't published.
pub fn settled_builds_are_settled_sets()
    ensures { SettledBuildIsSettled }
{}

/// Worked examples of builds: dependents, replies to claims, stops, skipped modules, entries that aren't allowed, refused outcomes and the
/// changes of each step. Also places of calls in a record, records that agree with a journal, and a legal build with its report.
pub fn worked_builds()
    ensures dependents { DependentsRow }
    ensures replies { RepliesRow }
    ensures least { LeastRow }
    ensures stop { StopRow }
    ensures skip { SkipRow }
    ensures not_allowed { NotAllowedRow }
    ensures refusal { RefusalRow }
    ensures stranger { StrangerRow }
    ensures steps { StepsRow }
    ensures places { PlacesRow }
    ensures one_record { RecordRow }
    ensures two_records { TwoRecordsRow }
    ensures legal { LegalRow }
{}

/// The shares of all records together count the journal entries that the records' calls wrote. This is the length of the journal, for the book
/// of the store.
pub fn shares_count_the_journal<L: Ledger>(store: &Store, book: &mut Book<L>, all: &mut Share<L>)
    requires counted { book.old.total ≡ length store.now.journal }
    requires all { all.old.parts ≡ L.parts }
    ensures entries { all.old.amount ≡ length store.now.journal }
    ensures total { book.new.total ≡ book.old.total }
    ensures amount { all.new.amount ≡ all.old.amount }
    ensures parts { all.new.parts ≡ all.old.parts }
{
    let _entries = store.entries();
    book.audit(all);
}
