//! The first module of each name.
ghost use Rattle.std.specs.Prelude.{◌≡◌, ◌↔◌, ◌<◌, IfOk, IsTrue, codes, length};
ghost use Rattle.hm_graph.specs.Imports.{IsTaken};
ghost use Rattle.hm_service_sources.specs.LeftOut.{outlines_of};
ghost use Rattle.hm_service_sources.specs.Steps.{AreFirsts};

use hm_run_sources::Located;
use indexmap::IndexMap;
use std::alloc::{AllocError, Global};

/// Returns whether a name is that of Prelude.
pub(crate) fn is_prelude(name: &str) -> bool
    ensures { IsTrue result ↔ (name.now ≡ codes "Prelude") }
{
    name == "Prelude"
}

/// Returns a table of the first modules by name.
pub(crate) fn first_numbers<'a>(
    alloc: Global,
    located: &'a [Located],
) -> Result<IndexMap<&'a str, usize>, AllocError>
    ensures { IfOk result (AreFirsts (outlines_of located.now) (length located.now)) }
{
    let mut numbers = IndexMap::new(alloc);
    'modules: for number in 0..located.len() {
        let name = located[number].header.name.as_str();
        if !numbers.contains_key(name) {
            numbers.insert(name, number)?;
        }
    }
    Ok(numbers)
}

/// Returns whether the name of a module is Prelude or that of an earlier module.
pub(crate) fn is_taken(numbers: &IndexMap<&str, usize>, located: &[Located], number: usize) -> bool
    requires numbers { AreFirsts (outlines_of located.now) (length located.now) numbers.now }
    requires number { number < length located.now }
    ensures { IsTrue result ↔ IsTaken (outlines_of located.now) number }
{
    let name = located[number].header.name.as_str();
    if is_prelude(name) {
        return true;
    }
    match numbers.get(name) {
        Some(first) => *first != number,
        None => false,
    }
}
