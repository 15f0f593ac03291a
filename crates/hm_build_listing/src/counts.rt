//! The last line: the numbers of good, faulty and skipped modules.
ghost use Rattle.std.specs.Prelude.{◌≡◌, IfOk, length, string_bytes};
ghost use Rattle.serde_json.specs.View.{view};
ghost use Rattle.hm_verdicts.specs.Reports.{is_failed, is_published, is_skipped, tally};
ghost use Rattle.hm_build_reports.specs.Settling.{statuses_of};
ghost use Rattle.hm_build_listing.specs.Listings.{counts_data, end_text};

use hm_build_objects::line_of;
use hm_build_reports::Settled;
use serde_json::{Value, json};
use std::alloc::{AllocError, Global};

/// The numbers of good, faulty and skipped modules.
#[derive(Clone, Copy)]
struct Counts {
    good: usize,
    faulty: usize,
    skipped: usize,
}

/// Counts the modules of a settled set.
fn counts_of(settled: &[Settled<'_>]) -> Counts
    ensures good { result.good ≡ tally is_published (statuses_of settled.now) (length settled.now) }
    ensures faulty { result.faulty ≡ tally is_failed (statuses_of settled.now) (length settled.now) }
    ensures skipped { result.skipped ≡ tally is_skipped (statuses_of settled.now) (length settled.now) }
{
    let mut good = 0usize;
    let mut faulty = 0usize;
    let mut skipped = 0usize;
    for status in settled {
        match status {
            Settled::Published(_) => good += 1,
            Settled::Failed(_) => faulty += 1,
            Settled::Skipped => skipped += 1,
        }
    }
    Counts {
        good,
        faulty,
        skipped,
    }
}

/// Returns counts as an object.
fn counts_value(alloc: Global, modules: usize, counts: Counts) -> Result<Value, AllocError>
    ensures { IfOk result (λ value. view value ≡ counts_data modules counts.good counts.faulty counts.skipped) }
{
    let modules = modules as u64;
    let good = counts.good as u64;
    let faulty = counts.faulty as u64;
    let skipped = counts.skipped as u64;
    json!(in alloc; {
        "faulty": faulty,
        "good": good,
        "kind": "end",
        "modules": modules,
        "skipped": skipped,
    })
}

/// Returns the object of the counts, and a line end.
pub(crate) fn end_line(alloc: Global, settled: &[Settled<'_>]) -> Result<String, AllocError>
    ensures { IfOk result (λ text. string_bytes text ≡ end_text (statuses_of settled.now) (length settled.now)) }
{
    let value = counts_value(alloc, settled.len(), counts_of(settled))?;
    line_of(alloc, &value)
}
