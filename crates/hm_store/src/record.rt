//! The record of a worker's calls.

ghost use Rattle.std.specs.Prelude.{◌≡◌, ◌≤◌, [], IfOk, option_map, vec_capacity};
ghost use Rattle.std.specs.Arc.{arc_value};

use hm_types::Interface;
use std::alloc::{AllocError, Global};
use std::sync::Arc;

/// A call that returned, with its reply.
#[derive(Drop)]
pub enum Act {
    /// A claim that got this module.
    Job(usize),
    /// A claim after which nothing is left to do.
    Done,
    /// The publication of this module.
    Publish(usize),
    /// The failure of this module.
    Fail(usize),
    /// A stop, and whether it was the first.
    Stop(bool),
    /// A look-up of this module, with the interface that it found.
    Look(usize, Option<Arc<Interface>>),
}

// Why: docs/DECISIONS.md, "Records".
/// A call, with the number of journal entries after which it got its reply.
#[derive(Drop)]
pub struct Call {
    pub at: usize,
    pub act: Act,
}

// Why: docs/DECISIONS.md, "Records are plain data".
/// The calls of a worker that returned, in order.
pub struct Record {
    pub worker: usize,
    pub calls: Vec<Call>,
}

impl Drop for Record {
    fn drop(self) {
        let Record {
            worker: _,
            calls: _calls,
        } = self;
    }
}

impl Record {
    /// Returns an empty record for this worker, with room for `room` calls.
    pub fn new(alloc: Global, worker: usize, room: usize) -> Result<Record, AllocError>
        ensures worker { IfOk result (λ r. r.worker ≡ worker) }
        ensures empty { IfOk result (λ r. r.calls.items ≡ []) }
        ensures room { IfOk result (λ r. room ≤ vec_capacity r.calls) }
    {
        let calls = Vec::with_capacity(alloc, room)?;
        Ok(Record { worker, calls })
    }
}

/// Returns a second owner of a found interface, for the record. Passes call it.
pub fn noted(found: &Option<Arc<Interface>>) -> Result<Option<Arc<Interface>>, AllocError>
    ensures { IfOk result (λ o. option_map arc_value o ≡ option_map arc_value found.now) }
{
    match found {
        Some(interface) => Ok(Some(Arc::try_clone(interface)?)),
        None => Ok(None),
    }
}
