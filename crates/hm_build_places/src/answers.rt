//! The text for a place, and its status.
ghost use Rattle.std.specs.Prelude.{◌≡◌, ℕ, List, IfOk, map, string_bytes};
ghost use Rattle.hm_run_sources.specs.ModuleCounts.{AreOrigins};
ghost use Rattle.hm_build_place_texts.specs.Facts.{item_of};
ghost use Rattle.hm_build_places.specs.Answers.{IsPlaceAnswer, status_of};
ghost use Rattle.hm_build_places.specs.Views.{known_in, known_of};

use crate::finding::found_items;
use crate::views::{View, file_text};
use hm_build_place_texts::{PlaceFormat, PlaceFound, PlaceItem, place_text};
use hm_run_sources::{Answer, Status, origins_of};
use hm_store::Store;
use hm_types_prelude::SharedPrelude;
use std::alloc::{AllocError, Global};

/// A place of a source about which a run is asked.
#[derive(Debug, Drop)]
pub struct PlaceQuestion {
    /// The names of the sources' files, in order. A source without a name is standard input.
    pub names: Vec<Vec<u8>>,
    /// The number of the source, from 0.
    pub source: usize,
    /// The line, from 1.
    pub line: u32,
    /// The column in characters, from 1.
    pub column: usize,
    /// How the result is written.
    pub format: PlaceFormat,
}

/// Returns the status of a place with these items.
fn status_of(items: &[PlaceItem]) -> Status
    ensures { result ≡ status_of (map item_of items.now) }
{
    if items.is_empty() {
        Status::Faulty
    } else {
        Status::Good
    }
}

/// Returns the text and the status for a place.
fn viewed_answer(
    alloc: Global,
    view: &View<'_>,
    question: &PlaceQuestion,
) -> Result<Answer, AllocError>
    ensures { IfOk result (λ a. IsPlaceAnswer (known_of view.now) question.now.format question.now.source question.now.line question.now.column a.status (string_bytes a.text)) }
{
    let items = found_items(alloc, view, question.source, question.line, question.column)?;
    let status = status_of(items.as_slice());
    let found = PlaceFound {
        file: file_text(alloc, view, question.source)?,
        line: question.line,
        column: question.column,
        items,
    };
    let text = place_text(alloc, question.format, &found)?;
    Ok(Answer { status, text })
}

/// Returns what the name at a place of a finished build's sources means, or that there is none. `counts` has the number of modules of each source.
///
/// # Errors
///
/// If memory runs out.
pub fn place_answer(
    alloc: Global,
    store: &Store,
    counts: &[usize],
    sources: &[Vec<u8>],
    question: &PlaceQuestion,
) -> Result<Answer, AllocError>
    ensures { IfOk result (λ a. (origins : List ℕ) × (AreOrigins counts.now origins
        × IsPlaceAnswer (known_in store.now (map (λ n. n.items) question.now.names.items) (map (λ s. s.items) sources.now) origins)
        question.now.format question.now.source question.now.line question.now.column a.status (string_bytes a.text))) }
{
    let prelude = SharedPrelude::new(alloc)?;
    let origins = origins_of(alloc, counts)?;
    let view = View {
        store,
        prelude: &prelude,
        names: question.names.as_slice(),
        sources,
        origins: origins.as_slice(),
    };
    Ok(viewed_answer(alloc, &view, question)?)
}
