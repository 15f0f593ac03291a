//! The sources in which types are read.
ghost use Rattle.std.specs.Prelude.{◌≡◌, ◌<◌, IfOk, IfSome, length, map};
ghost use Rattle.std.specs.Arc.{arc_value};
ghost use Rattle.hm_build_places.specs.TypesAt.{IsRead};
ghost use Rattle.hm_build_places.specs.Views.{known_of};
ghost use Rattle.hm_verdicts.specs.Reports.{name_of_module};

use crate::entities::imported_interfaces;
use crate::views::{View, module_of, origin_of, text_of};
use hm_messages_here::{Whole, without_faults};
use hm_messages_types::Question;
use hm_names::Fault;
use hm_types::Interface;
use hm_verdicts::Verdict;
use std::alloc::{AllocError, Global};
use std::sync::Arc;

/// The source of a module in which its types are read, and the interfaces of its imports.
#[derive(Drop)]
pub(crate) struct Read {
    pub whole: Whole,
    pub imports: Vec<Arc<Interface>>,
}

/// Returns the faults of a module, none if it is good, or `None` if it has no verdict.
fn faults_of<'a>(view: &View<'a>, number: usize) -> Option<&'a [Fault]>
    requires { number < length view.now.store.now.modules }
{
    match view.store.verdict(number)? {
        Verdict::Good(_) => Some(&[]),
        Verdict::Faulty(faults) => Some(faults.as_slice()),
    }
}

/// Returns the source of a module in which its types are read: without its type faults. Returns `None` for a module that has other faults, or is skipped.
pub(crate) fn read_of(
    alloc: Global,
    view: &View<'_>,
    number: usize,
) -> Result<Option<Read>, AllocError>
    requires { number < length view.now.store.now.modules }
    ensures { IfOk result (λ found. IfSome found (λ read. IsRead (known_of view.now) number read.whole.source.items (map arc_value read.imports.items))) }
{
    let Some(faults) = faults_of(view, number) else {
        return Ok(None);
    };
    let Some(imports) = imported_interfaces(alloc, view, number)? else {
        return Ok(None);
    };
    let source = text_of(view, origin_of(view, number));
    let name = module_of(view, number).header.name.as_str();
    match without_faults(alloc, source, name, faults)? {
        Some(whole) => Ok(Some(Read { whole, imports })),
        None => Ok(None),
    }
}

/// Returns what is asked about a module.
pub(crate) fn question_of<'a>(view: &View<'a>, number: usize, read: &'a Read) -> Question<'a>
    requires { number < length view.now.store.now.modules }
    ensures source { result.source.now ≡ read.now.whole.source.items }
    ensures name { result.name.now ≡ name_of_module (known_of view.now).set number }
    ensures imports { result.imports.now ≡ read.now.imports.items }
{
    Question {
        source: read.whole.source.as_slice(),
        name: module_of(view, number).header.name.as_str(),
        imports: read.imports.as_slice(),
        prelude: view.prelude,
    }
}
