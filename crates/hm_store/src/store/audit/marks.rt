//! Marks the journal entries that the calls of records wrote.
ghost use Rattle.std.specs.Prelude.{◌==◌, ◌≡◌, ◌<◌, ◌↔◌, IfOk, IsTrue, cond, count_by, false, length, slice_index_or, true, ℕ};
ghost use Rattle.hm_store.specs.Agreement.{writers, writes_at};
ghost use Rattle.hm_store.specs.AuditsInside.{IsTwice, Marks};
ghost use Rattle.hm_store.specs.Records.{wrote};

use crate::record::{Act, Call, Record};
use std::alloc::{AllocError, Global};

impl Act {
    /// Returns whether a call with this reply writes an entry.
    pub(super) fn writes(&self) -> bool
        ensures { result ≡ (wrote self.now == 1) }
    {
        match self {
            Act::Job(_) => true,
            Act::Done => false,
            Act::Publish(_) => true,
            Act::Fail(_) => true,
            Act::Stop(is_first) => *is_first,
            Act::Look(_, _) => false,
        }
    }
}

/// Returns whether each of `count` entries was written by exactly one call.
pub(super) fn is_each_written_once(
    alloc: Global,
    entries: usize,
    records: &[Record],
) -> Result<bool, AllocError>
    ensures { IfOk result (λ ok. IsTrue ok ↔ ((i : ℕ) → i < entries → writers i records.now ≡ 1)) }
{
    let mut marks = Vec::from_elem(alloc, false, entries)?;
    for record in records {
        if !mark_all(&mut marks, &record.calls) {
            return Ok(false);
        }
    }
    Ok(are_all(&marks))
}

/// Returns whether all marks are set.
fn are_all(marks: &[bool]) -> bool
    ensures { IsTrue result ↔ ((i : ℕ) → i < length marks.now → slice_index_or marks.now i false ≡ true) }
{
    marks.iter().all(|mark| *mark)
}

/// Marks the entries that these calls wrote. Returns false if one was marked before.
fn mark_all(marks: &mut [bool], calls: &[Call]) -> bool
    ensures yes { result ≡ true → Marks marks.old (λ i. count_by (writes_at i) calls.now) marks.new }
    ensures no { result ≡ false → IsTwice marks.old (λ i. count_by (writes_at i) calls.now) }
{
    for call in calls {
        if !mark_written(marks, call) {
            return false;
        }
    }
    true
}

/// Marks the entry that a call wrote, if any. Returns false if it was marked before.
fn mark_written(marks: &mut [bool], call: &Call) -> bool
    ensures yes { result ≡ true → Marks marks.old (λ i. cond (writes_at i call.now) 1 0) marks.new }
    ensures no { result ≡ false → IsTwice marks.old (λ i. cond (writes_at i call.now) 1 0) }
{
    if !call.act.writes() {
        return true;
    }
    if call.at >= marks.len() {
        return true;
    }
    let is_new = !marks[call.at];
    marks[call.at] = true;
    is_new
}
