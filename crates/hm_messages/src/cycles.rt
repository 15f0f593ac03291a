//! Finds a shortest path of imports from a module back to itself. It is proved only that the search ends.
use hm_run_sources::Located;
use indexmap::IndexMap;
use std::alloc::{AllocError, Global};

/// A step of a path: an import of a module, both by their numbers.
#[derive(Clone, Copy)]
pub(crate) struct ImportStep {
    pub module: usize,
    pub import: usize,
}

/// The state of a search for a path.
struct Search<'a> {
    numbers: IndexMap<&'a str, usize>,
    /// For each module, the step that reached it first.
    came: Vec<Option<ImportStep>>,
    /// The modules that were reached, in order.
    reached: Vec<usize>,
}

impl Drop for Search<'_> {
    fn drop(self) {
        let Search {
            numbers: _numbers,
            came: _came,
            reached: _reached,
        } = self;
    }
}

/// Returns the number of each module under its name.
fn numbers_of<'a>(
    alloc: Global,
    located: &'a [Located],
) -> Result<IndexMap<&'a str, usize>, AllocError> {
    let mut numbers = IndexMap::new(alloc);
    for number in 0..located.len() {
        numbers.insert(located[number].header.name.as_str(), number)?;
    }
    Ok(numbers)
}

/// Reaches the modules that a module imports. Returns the step that leads back to `start`, if there is one.
fn reach(
    search: &mut Search<'_>,
    located: &[Located],
    module: usize,
    start: usize,
) -> Result<Option<ImportStep>, AllocError> {
    let Some(here) = located.get(module) else {
        return Ok(None);
    };
    let imports = here.header.imports.as_slice();
    for import in 0..imports.len() {
        let step = ImportStep { module, import };
        let Some(target) = search.numbers.get(imports[import].name.as_str()) else {
            continue;
        };
        let target = *target;
        if target == start {
            return Ok(Some(step));
        }
        if target < search.came.len() && search.came[target].is_none() {
            search.came[target] = Some(step);
            search.reached.push(target)?;
        }
    }
    Ok(None)
}

/// Returns the steps from `start` to the last one.
fn way_to(
    alloc: Global,
    came: &[Option<ImportStep>],
    last: ImportStep,
    start: usize,
) -> Result<Vec<ImportStep>, AllocError> {
    let mut steps = Vec::new(alloc);
    let mut step = last;
    for _ in 0..came.len() {
        steps.push(step)?;
        if step.module == start {
            break;
        }
        match came.get(step.module) {
            Some(Some(earlier)) => step = *earlier,
            _ => break,
        }
    }
    steps.reverse();
    Ok(steps)
}

/// Returns the steps of a shortest path of imports from a module back to itself, or no steps if there is none.
pub(crate) fn cycle_of(
    alloc: Global,
    located: &[Located],
    start: usize,
) -> Result<Vec<ImportStep>, AllocError> {
    let mut search = Search {
        numbers: numbers_of(alloc, located)?,
        came: vec![in alloc; None; located.len()]?,
        reached: vec![in alloc; start; 1]?,
    };
    for at in 0..located.len() {
        if at >= search.reached.len() {
            break;
        }
        let module = search.reached[at];
        if let Some(last) = reach(&mut search, located, module, start)? {
            return way_to(alloc, search.came.as_slice(), last, start);
        }
    }
    Ok(Vec::new(alloc))
}
