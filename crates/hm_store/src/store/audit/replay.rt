//! Replays the journal of a build.
ghost use Rattle.std.specs.Prelude.{◌≡◌, ◌≤◌, ◌↔◌, IfOk, IsTrue, None, Some, length, option_map, slice_set};
ghost use Rattle.std.specs.Arc.{arc_value};
ghost use Rattle.std.specs.Option.{option_copied};
ghost use Rattle.hm_store.specs.Agreement.{Replies, look_in};
ghost use Rattle.hm_store.specs.AuditsInside.{IsReplay, played};
ghost use Rattle.hm_store.specs.Objects.{after, reply_of, status_at};

use crate::object::{Claimed, Entry, Status};
use crate::record::Act;
use crate::store::Store;
use crate::store::readiness::{reply_at, skip_dependents, status_at};
use hm_graph::Dependents;
use hm_types::Interface;
use std::alloc::{AllocError, Global};
use std::sync::Arc;

/// The state of the build object after the first `at` entries of a journal.
#[derive(Drop)]
pub(super) struct Replay {
    statuses: Vec<Status>,
    stopped: bool,
    at: usize,
    search: Dependents,
}

impl Store {
    /// Returns the state before the first entry.
    pub(super) fn replay(&self, alloc: Global) -> Result<Replay, AllocError>
        ensures replay { IfOk result (IsReplay self.now) }
        ensures opening { IfOk result (λ r. r.at ≡ 0) }
    {
        let statuses = Vec::from_elem(alloc, Status::Waiting, self.plan().len())?;
        let search = Dependents::new(alloc, self.plan().len())?;
        Ok(Replay {
            statuses,
            stopped: false,
            at: 0,
            search,
        })
    }

    /// Replays the entries up to a place.
    pub(super) fn play_to(&self, replay: &mut Replay, at: usize)
        requires replay { IsReplay self.now replay.old }
        requires ahead { replay.old.at ≤ at }
        requires within { at ≤ length self.now.journal }
        ensures replay { IsReplay self.now replay.new }
        ensures at { replay.new.at ≡ at }
    {
        for place in replay.at..at {
            self.play(replay, self.journal()[place]);
        }
        replay.at = at;
    }

    /// Replays one entry.
    fn play(&self, replay: &mut Replay, entry: Entry)
        requires { length replay.old.search ≡ length self.now.given.imports }
        ensures state { played replay.new ≡ after self.now.given (played replay.old) entry }
        ensures at { replay.new.at ≡ replay.old.at }
        ensures search { length replay.new.search ≡ length replay.old.search }
    {
        let statuses = &mut replay.statuses;
        match entry {
            Entry::Claim {
                worker,
                module: number,
            } => put(statuses, number, Status::Claimed(worker)),
            Entry::Publish {
                worker: _,
                module: number,
            } => put(statuses, number, Status::Published),
            Entry::Fail {
                worker: _,
                module: number,
            } => {
                put(statuses, number, Status::Failed);
                skip_dependents(&self.plan, &mut replay.search, statuses, number);
            }
            Entry::Stop { worker: _ } => replay.stopped = true,
        }
    }

    /// Returns whether the build object gives this reply to a call of this worker in the replayed state.
    pub(super) fn replies(&self, replay: &Replay, worker: usize, act: &Act) -> bool
        requires { IsReplay self.now replay.now }
        ensures { IsTrue result ↔ Replies self.now (played replay.now) worker act.now }
    {
        match act {
            Act::Job(number) => self.reply_in(replay) == Claimed::Job(*number),
            Act::Done => self.reply_in(replay) == Claimed::Done,
            Act::Publish(number) => replay.status(*number) == Status::Claimed(worker),
            Act::Fail(number) => replay.status(*number) == Status::Claimed(worker),
            Act::Stop(is_first) => *is_first == !replay.stopped,
            Act::Look(number, found) => self.finds(replay, *number, found),
        }
    }

    /// Returns the reply to a claim in the replayed state.
    fn reply_in(&self, replay: &Replay) -> Claimed
        requires { IsReplay self.now replay.now }
        ensures { result ≡ reply_of self.now.given (played replay.now) }
    {
        reply_at(self.plan(), &replay.statuses, replay.stopped)
    }

    /// Returns whether a look-up in the replayed state finds this interface.
    fn finds(&self, replay: &Replay, number: usize, found: &Option<Arc<Interface>>) -> bool
        ensures { IsTrue result ↔ (option_map arc_value found.now ≡ look_in self.now (played replay.now) number) }
    {
        match (found, self.look_in(replay, number)) {
            (Some(interface), Some(other)) => interface.is_same(other),
            (None, None) => true,
            _ => false,
        }
    }

    /// Returns the interface that a look-up finds in the replayed state.
    fn look_in(&self, replay: &Replay, number: usize) -> Option<&Arc<Interface>>
        ensures { option_map arc_value (option_copied result) ≡ look_in self.now (played replay.now) number }
    {
        if replay.status(number).is_published() {
            self.look(number)
        } else {
            None
        }
    }
}

impl Replay {
    /// Returns the status of a module.
    fn status(&self, number: usize) -> Status
        ensures { result ≡ status_at self.now.statuses.items number }
    {
        status_at(&self.statuses, number)
    }
}

/// Sets the status of a module.
fn put(statuses: &mut [Status], number: usize, status: Status)
    ensures { statuses.new ≡ slice_set statuses.old number status }
{
    if number < statuses.len() {
        statuses[number] = status;
    }
}
