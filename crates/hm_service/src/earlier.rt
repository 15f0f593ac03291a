//! Earlier checks.
ghost use Rattle.std.specs.Prelude.{All, IfOk};
ghost use Rattle.hm_build_earlier.specs.Earlier.{IsOfTexts};

use hm_build::Earlier;
use hm_service_places::Checked;
use std::alloc::{AllocError, Global};

/// Checks whose builds a later check may use.
///
/// A thread gets them as a value of a type parameter. From a closure with a slice of values that borrow, the caller of `thread::scope` would learn
/// nothing.
pub(crate) trait EarlierChecks {
    /// Returns the builds of the checks with their texts.
    fn builds(&self, alloc: Global) -> Result<Vec<Earlier<'_>>, AllocError>
        ensures { IfOk result (λ builds. All IsOfTexts builds.items) };
}

/// A list of earlier checks.
#[derive(Clone, Copy)]
pub(crate) struct Checks<'a> {
    pub all: &'a [&'a Checked],
}

impl EarlierChecks for Checks<'_> {
    fn builds(&self, alloc: Global) -> Result<Vec<Earlier<'_>>, AllocError> {
        Ok(builds_of(alloc, self.all)?)
    }
}

/// Returns the build of a check with its texts.
fn build_of<'a>(checked: &'a Checked) -> Earlier<'a>
    ensures { IsOfTexts result }
{
    checked.spelled.holds();
    Earlier {
        texts: checked.texts.as_slice(),
        build: &checked.build,
    }
}

/// Returns the builds of checks with their texts.
fn builds_of<'a>(alloc: Global, checks: &[&'a Checked]) -> Result<Vec<Earlier<'a>>, AllocError>
    ensures { IfOk result (λ builds. All IsOfTexts builds.items) }
{
    let mut builds = Vec::new(alloc);
    'checks: for checked in checks {
        builds.push(build_of(*checked))?;
    }
    Ok(builds)
}
