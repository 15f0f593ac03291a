//! What is known of a finished build and of its sources.
ghost use Rattle.std.specs.Prelude.{◌≡◌, ◌<◌, [], IfNone, IfOk, IfSome, length, map, slice_index_or, string_bytes};
ghost use Rattle.hm_verdicts.specs.Sets.{module_at};
ghost use Rattle.hm_build_places.specs.Known.{HasNoNumber, IsNumberOf, file_at, file_text, origin_of, text_of};
ghost use Rattle.hm_build_places.specs.Views.{known_of};

use hm_messages_excerpts::shown;
use hm_store::Store;
use hm_syntax::Module;
use hm_types_prelude::SharedPrelude;
use std::alloc::{AllocError, Global};

/// A finished build, with the names and the texts of its sources, and the number of each module's source.
#[derive(Clone, Copy)]
pub(crate) struct View<'a> {
    pub store: &'a Store,
    pub prelude: &'a SharedPrelude,
    pub names: &'a [Vec<u8>],
    pub sources: &'a [Vec<u8>],
    pub origins: &'a [usize],
}

/// Returns the name of the file of a source.
fn file_at(names: &[Vec<u8>], source: usize) -> &[u8]
    ensures { result.now ≡ file_at (map (λ n. n.items) names.now) source }
{
    if source < names.len() {
        names[source].as_slice()
    } else {
        b"<stdin>"
    }
}

/// Returns the name of the file of a source, as it is shown.
pub(crate) fn file_text(alloc: Global, view: &View<'_>, source: usize) -> Result<String, AllocError>
    ensures { IfOk result (λ text. string_bytes text ≡ file_text (known_of view.now) source) }
{
    shown(alloc, file_at(view.names, source))
}

/// Returns the text of a source, or none for a number that no source has.
fn text_at(sources: &[Vec<u8>], source: usize) -> &[u8]
    ensures { result.now ≡ slice_index_or (map (λ s. s.items) sources.now) source [] }
{
    if source < sources.len() {
        sources[source].as_slice()
    } else {
        b""
    }
}

/// Returns the text of a source.
pub(crate) fn text_of<'a>(view: &View<'a>, source: usize) -> &'a [u8]
    ensures { result.now ≡ text_of (known_of view.now) source }
{
    text_at(view.sources, source)
}

/// Returns the number of a module's source.
pub(crate) fn origin_of(view: &View<'_>, number: usize) -> usize
    ensures { result ≡ origin_of (known_of view.now) number }
{
    if number < view.origins.len() {
        view.origins[number]
    } else {
        0
    }
}

/// Returns a module.
pub(crate) fn module_of<'a>(view: &View<'a>, number: usize) -> &'a Module
    requires { number < length view.now.store.now.modules }
    ensures { result.now ≡ module_at (known_of view.now).set number }
{
    &view.store.modules()[number]
}

/// Returns the number of modules.
pub(crate) fn module_count(view: &View<'_>) -> usize
    ensures { result ≡ length view.now.store.now.modules }
{
    view.store.modules().len()
}

/// Returns the number of the first module with this name.
pub(crate) fn number_of(view: &View<'_>, name: &str) -> Option<usize>
    ensures some { IfSome result (λ number. IsNumberOf (known_of view.now) name.now number) }
    ensures none { IfNone result (HasNoNumber (known_of view.now) name.now) }
{
    'modules: for number in 0..module_count(view) {
        if module_of(view, number).header.name.as_str() == name {
            return Some(number);
        }
    }
    None
}
