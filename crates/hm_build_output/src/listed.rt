//! What is written of a run: its text, or its report as JSON objects.
ghost use Rattle.std.specs.Prelude.{◌≡◌, ℕ, List, IfNone, IfOk, IfSome, map, string_bytes};
ghost use Rattle.hm_run_sources.specs.ModuleCounts.{AreOrigins};
ghost use Rattle.hm_store.specs.Builds.{set_of};
ghost use Rattle.hm_store.specs.Settlements.{settlement};
ghost use Rattle.hm_build_listing.specs.Listings.{IsListing, file_of};
ghost use Rattle.hm_build_listing.specs.Refusals.{refusal_object_text};

use crate::options::RunOptions;
use hm_build_listing::{listing, refusal_line};
use hm_run_sources::SetFault;
use hm_store::Store;
use std::alloc::{AllocError, Global};

/// Returns what is written of a finished build with this text. `counts` has the number of modules of each source.
#[tactic(auto, using(crate::proofs::Telling::chosen_listing))]
pub(crate) fn finished_text(
    alloc: Global,
    store: &Store,
    counts: &[usize],
    run_options: &RunOptions,
    text: String,
) -> Result<String, AllocError>
    ensures objects { IfOk result (λ written. IfSome run_options.now.listed (λ names. (origins : List ℕ) × AreOrigins counts.now origins
        × IsListing (file_of (map string_bytes names.items) origins) (set_of store.now) (settlement store.now) (string_bytes written))) }
    ensures text { IfOk result (λ written. IfNone run_options.now.listed (string_bytes written ≡ string_bytes text)) }
{
    match &run_options.listed {
        Some(names) => Ok(listing(alloc, store, counts, names.as_slice())?),
        None => Ok(text),
    }
}

/// Returns what is written of a refused set with this text.
pub(crate) fn refused_text(
    alloc: Global,
    fault: &SetFault,
    run_options: &RunOptions,
    text: String,
) -> Result<String, AllocError>
    ensures object { IfOk result (λ written. IfSome run_options.now.listed (λ names. string_bytes written ≡ refusal_object_text fault.now)) }
    ensures text { IfOk result (λ written. IfNone run_options.now.listed (string_bytes written ≡ string_bytes text)) }
{
    match &run_options.listed {
        Some(_) => Ok(refusal_line(alloc, fault)?),
        None => Ok(text),
    }
}
