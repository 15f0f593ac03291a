//! Compares records with the journal.
ghost use Rattle.std.specs.Prelude.{◌≡◌, ◌≤◌, ◌↔◌, IfOk, IfSome, IsTrue, Some, slice_get};
ghost use Rattle.hm_store.specs.Agreement.{Agree, CallAgrees, RecordAgrees, entry_of as entry_of_act};
ghost use Rattle.hm_store.specs.AuditsInside.{IsReplay};
ghost use Rattle.hm_store.specs.Records.{rises};

use super::Store;
use crate::object::Entry;
use crate::record::{Act, Call, Record};
use marks::is_each_written_once;
use replay::Replay;
use std::alloc::{AllocError, Global};

mod marks;
mod replay;

impl Store {
    /// Returns whether the records agree with the journal. If so, exactly one call wrote each entry, each record is in order, and each call has the
    /// reply that the build object gives after the entries before it.
    pub fn audit(&self, alloc: Global, records: &[Record]) -> Result<bool, AllocError>
        ensures { IfOk result (λ ok. IsTrue ok ↔ Agree self.now records.now) }
    {
        for log in records {
            if !self.record_agrees(alloc, log)? {
                return Ok(false);
            }
        }
        Ok(is_each_written_once(alloc, self.journal().len(), records)?)
    }

    /// Returns whether a record is in order and each of its calls agrees.
    fn record_agrees(&self, alloc: Global, log: &Record) -> Result<bool, AllocError>
        ensures { IfOk result (λ ok. IsTrue ok ↔ RecordAgrees self.now log.now) }
    {
        if !log.is_ordered() {
            return Ok(false);
        }
        let mut replay = self.replay(alloc)?;
        for call in &log.calls {
            if !self.call_agrees(&mut replay, log.worker, call) {
                return Ok(false);
            }
        }
        Ok(true)
    }

    /// Returns whether a call has the right reply at its place, and its own entry there.
    fn call_agrees(&self, replay: &mut Replay, worker: usize, call: &Call) -> bool
        requires replay { IsReplay self.now replay.old }
        requires ahead { replay.old.at ≤ call.now.at }
        ensures agrees { IsTrue result ↔ CallAgrees self.now worker call.now }
        ensures replay { IsReplay self.now replay.new }
        ensures place { replay.new.at ≤ call.now.at }
    {
        if call.at > self.journal().len() {
            return false;
        }
        self.play_to(replay, call.at);
        self.replies(replay, worker, &call.act) && self.has_entry(worker, call)
    }

    /// Returns whether the entry at a call's place is the one that it wrote.
    fn has_entry(&self, worker: usize, call: &Call) -> bool
        ensures { IsTrue result ↔ IfSome (entry_of_act worker call.now.act) (λ e. slice_get self.now.journal call.now.at ≡ Some e) }
    {
        match entry_of(worker, &call.act) {
            None => true,
            Some(entry) => self.journal().get(call.at) == Some(&entry),
        }
    }
}

impl Record {
    /// Returns whether the places of the calls never go back.
    fn is_ordered(&self) -> bool
        ensures { result ≡ rises 0 self.now.calls.items }
    {
        let mut known: usize = 0;
        let mut wrote = false;
        for call in &self.calls {
            if call.at < known || (wrote && call.at == known) {
                return false;
            }
            known = call.at;
            wrote = call.act.writes();
        }
        true
    }
}

/// Returns the entry that this worker's call wrote.
fn entry_of(worker: usize, act: &Act) -> Option<Entry>
    ensures { result ≡ entry_of_act worker act.now }
{
    match act {
        Act::Job(number) => Some(Entry::Claim {
            worker,
            module: *number,
        }),
        Act::Done => None,
        Act::Publish(number) => Some(Entry::Publish {
            worker,
            module: *number,
        }),
        Act::Fail(number) => Some(Entry::Fail {
            worker,
            module: *number,
        }),
        Act::Stop(true) => Some(Entry::Stop { worker }),
        Act::Stop(false) => None,
        Act::Look(_, _) => None,
    }
}
