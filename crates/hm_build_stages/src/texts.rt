//! The texts of a finished build.
ghost use Rattle.std.specs.Prelude.{◌≡◌, IfOk, string_bytes};
ghost use Rattle.hm_verdicts.specs.Reports.{IsReport};
ghost use Rattle.hm_store.specs.Builds.{set_of};
ghost use Rattle.hm_store.specs.Settlements.{settlement as settlement_in};
ghost use Rattle.hm_build_reports.specs.Journals.{journal_text as journal_bytes};

use crate::Finished;
use std::alloc::{AllocError, Global};

/// Returns the report of a build: a block for each module, ordered by name, and the counts.
pub fn report(alloc: Global, finished: &Finished) -> Result<String, AllocError>
    ensures { IfOk result (λ text. IsReport (set_of finished.now.store) (settlement_in finished.now.store) (string_bytes text)) }
{
    hm_build_reports::report(alloc, &finished.store)
}

/// Returns the text of the journal of a build: a line for each entry, in order.
pub fn journal_text(alloc: Global, finished: &Finished) -> Result<String, AllocError>
    ensures { IfOk result (λ text. string_bytes text ≡ journal_bytes finished.now.store) }
{
    hm_build_reports::journal_text(alloc, &finished.store)
}
