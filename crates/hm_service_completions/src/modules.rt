//! The module at a line of a source.
ghost use Rattle.std.specs.Prelude.{◌≡◌, ◌<◌, IfNone, IfSome, IsTrue, ◌↔◌, length, option_map};
ghost use Rattle.hm_service_completions.specs.Completions.{HasNoModule, IsBegun, IsModuleAt, interface_by};
ghost use Rattle.hm_service_references.specs.Views.{known_of};

use hm_service_references::{View, module_of, source_of};
use hm_types::Interface;

/// A line of a source, from 1. `part` has the numbers in the held set of the sources that are checked.
#[derive(Clone, Copy)]
pub(crate) struct SourceLine<'a> {
    pub part: &'a [usize],
    pub source: usize,
    pub line: usize,
}

/// Returns whether a module is in the source, and its name is at or before the line.
fn is_begun(view: &View<'_>, spot: &SourceLine<'_>, number: usize) -> bool
    requires { number < length view.now.store.now.modules }
    ensures { IsTrue result ↔ IsBegun (known_of view.now) spot.now.part.now spot.now.source spot.now.line number }
{
    let name = &module_of(view, number).header.name;
    source_of(view, spot.part, number) == spot.source && name.place.line as usize <= spot.line
}

/// Returns the module of the source at the line: the last one whose name is at or before it.
pub(crate) fn module_at(view: &View<'_>, spot: &SourceLine<'_>) -> Option<usize>
    ensures some { IfSome result (λ number. IsModuleAt (known_of view.now) spot.now.part.now spot.now.source spot.now.line number) }
    ensures none { IfNone result (HasNoModule (known_of view.now) spot.now.part.now spot.now.source spot.now.line) }
{
    let count = view.store.modules().len();
    'modules: for back in 0..count {
        let number = count - 1 - back;
        if is_begun(view, spot, number) {
            return Some(number);
        }
    }
    None
}

/// Returns the interface of a module, if it is good.
pub(crate) fn own_interface<'a>(view: &View<'a>, number: usize) -> Option<&'a Interface>
    ensures { option_map (λ f. f.now) result ≡ interface_by ((known_of view.now).status number) }
{
    match view.store.look(number) {
        Some(interface) => Some(interface),
        None => None,
    }
}
