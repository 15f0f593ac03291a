//! The sources of earlier builds, with the modules that they spell.
ghost use Rattle.std.specs.Prelude.{All, IfOk, IfSome, OnOk, map};
ghost use Rattle.std.specs.Arc.{arc_value};
ghost use Rattle.hm_build_earlier.specs.Earlier.{IsOfTexts};
ghost use Rattle.hm_build_earlier.specs.Known.{IsKnown};
ghost use Rattle.hm_run_sources.specs.SourceModules.{HasModules};

use crate::Earlier;
use hm_syntax::Module;
use indexmap::IndexMap;
use std::alloc::{AllocError, Global};
use std::sync::Arc;

/// A source of an earlier build, and the modules that it spells.
#[derive(Clone, Copy)]
pub(crate) struct KnownSource<'a> {
    pub text: &'a [u8],
    pub modules: &'a [Arc<Module>],
    /// The place of the last source before it with a text of the same length.
    pub before: Option<usize>,
}

/// The sources of earlier builds.
///
/// A source that is found is compared with the text that is looked up, so no contract depends on the table.
#[derive(Drop)]
pub(crate) struct KnownSources<'a> {
    pub list: Vec<KnownSource<'a>>,
    /// The place of the last source with a text of this length.
    pub last: IndexMap<usize, usize>,
}

/// Adds the sources of an earlier build.
fn add_sources<'a>(
    known: &mut Vec<KnownSource<'a>>,
    last: &mut IndexMap<usize, usize>,
    earlier: Earlier<'a>,
) -> Result<(), AllocError>
    requires of_texts { IsOfTexts earlier }
    requires known { All IsKnown known.old.items }
    ensures { OnOk result (All IsKnown known.new.items) }
{
    let counts = earlier.build.counts.as_slice();
    let mut rest = earlier.build.modules();
    for index in 0..earlier.texts.len() {
        let text = earlier.texts[index].as_slice();
        let (modules, others) = rest.split_at(counts[index]);
        let before = last.insert(text.len(), known.len())?;
        known.push(KnownSource {
            text,
            modules,
            before,
        })?;
        rest = others;
    }
    Ok(())
}

/// Returns the sources of earlier builds.
pub(crate) fn known_sources<'a>(
    alloc: Global,
    earlier: &[Earlier<'a>],
) -> Result<KnownSources<'a>, AllocError>
    requires { All IsOfTexts earlier.now }
    ensures { IfOk result (λ known. All IsKnown known.list.items) }
{
    let mut list = Vec::new(alloc);
    let mut last = IndexMap::new(alloc);
    for index in 0..earlier.len() {
        add_sources(&mut list, &mut last, earlier[index])?;
    }
    Ok(KnownSources { list, last })
}

/// Returns the modules of the source at a place, if its text is this one.
fn modules_at<'a>(known: &[KnownSource<'a>], place: usize, text: &[u8]) -> Option<&'a [Arc<Module>]>
    requires { All IsKnown known.now }
    ensures { IfSome result (λ modules. HasModules text.now (map arc_value modules.now)) }
{
    if place >= known.len() {
        return None;
    }
    let source = known[place];
    if source.text == text {
        return Some(source.modules);
    }
    None
}

/// Returns the modules of a source with this text. Tries the place `next` first, and leaves the place after that of the source in it.
pub(crate) fn known_modules<'a>(
    known: &KnownSources<'a>,
    next: &mut usize,
    text: &[u8],
) -> Option<&'a [Arc<Module>]>
    requires { All IsKnown known.now.list.items }
    ensures { IfSome result (λ modules. HasModules text.now (map arc_value modules.now)) }
{
    let list = known.list.as_slice();
    let first = *next;
    *next = first.saturating_add(1);
    if let Some(modules) = modules_at(list, first, text) {
        return Some(modules);
    }
    let mut place = known.last.get(&text.len()).copied();
    for _ in 0..list.len() {
        let Some(at) = place else {
            return None;
        };
        if let Some(modules) = modules_at(list, at, text) {
            *next = at.saturating_add(1);
            return Some(modules);
        }
        if at >= list.len() {
            return None;
        }
        place = list[at].before;
    }
    None
}
