//! The types of the build object: the status of a module, journal entries and replies.
ghost use Rattle.std.specs.Prelude.{◌≡◌};
ghost use Rattle.hm_store.specs.Objects.{is_claimed, is_publication, is_published, is_settled, is_waiting};

use thiserror::Error;

/// The status of a module during a build.
#[derive(Clone, Copy, Debug, PartialEq, Eq)]
pub enum Status {
    /// No worker has claimed it.
    Waiting,
    /// The worker with this number checks it.
    Claimed(usize),
    /// It is good, and look-ups find its interface.
    Published,
    /// It has faults.
    Failed,
    /// It imports a module that failed or was skipped.
    Skipped,
}

impl Status {
    pub fn is_waiting(self) -> bool
        ensures { result ≡ is_waiting self }
    {
        matches!(self, Status::Waiting)
    }

    pub fn is_claimed(self) -> bool
        ensures { result ≡ is_claimed self }
    {
        matches!(self, Status::Claimed(_))
    }

    pub fn is_published(self) -> bool
        ensures { result ≡ is_published self }
    {
        matches!(self, Status::Published)
    }

    /// Returns whether it is published, failed or skipped. No later step changes such a status.
    pub fn is_settled(self) -> bool
        ensures { result ≡ is_settled self }
    {
        !self.is_waiting() && !self.is_claimed()
    }
}

// Why: docs/DECISIONS.md, "Journal without interfaces".
/// An entry of the journal: one step by a worker. Workers and modules are numbered from 0.
#[derive(Clone, Copy, Debug, PartialEq, Eq)]
pub enum Entry {
    /// The worker claimed a waiting module.
    Claim { worker: usize, module: usize },
    /// The worker published the interface of a module that it had claimed.
    Publish { worker: usize, module: usize },
    /// The worker failed a module that it had claimed.
    Fail { worker: usize, module: usize },
    /// The worker stopped the build.
    Stop { worker: usize },
}

impl Entry {
    /// Returns whether this is a publication.
    pub fn is_publication(self) -> bool
        ensures { result ≡ is_publication self }
    {
        matches!(
            self,
            Entry::Publish {
                worker: _,
                module: _,
            }
        )
    }
}

/// The store's reply to a claim.
#[derive(Clone, Copy, Debug, PartialEq, Eq)]
pub enum Claimed {
    /// The worker now has to check this module.
    Job(usize),
    /// No module is ready, but a claimed one may make others ready.
    Later,
    /// No module is left to check.
    Done,
}

/// The reply to a claim that waits until there is one.
#[derive(Clone, Copy, Debug, PartialEq, Eq)]
pub enum Turn {
    /// The worker now has to check this module.
    Job(usize),
    /// No module is left to check.
    Done,
}

/// Why an outcome is refused. If several reasons apply, the store returns the first.
#[derive(Clone, Copy, Debug, Error, PartialEq, Eq)]
pub enum Refusal {
    /// This worker hasn't claimed the module, or no module has this number.
    #[error("the module isn't claimed by this worker")]
    NotYours,
    /// The outcome is for another module, or for interfaces other than the published ones of the module's imports.
    #[error("the outcome isn't that of the module with the published interfaces of its imports")]
    Stranger,
    /// Memory ran out for the copies that look-ups read. Only a shared store returns this.
    #[error("no memory")]
    Memory,
}
