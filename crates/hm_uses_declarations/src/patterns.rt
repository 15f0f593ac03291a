//! The uses of names in patterns.
ghost use Rattle.std.specs.Prelude.{◌≡◌, OnOk};
ghost use Rattle.hm_syntax.specs.Lists.{patterns};
ghost use Rattle.hm_uses.specs.Found.{pattern_uses, patterns_uses};
ghost use Rattle.hm_uses_declarations.specs.Walking.{home_of, adding};

use crate::walking::Walk;
use hm_syntax::{Pat, PatKind};
use std::alloc::AllocError;

impl<'s, 'a> Walk<'s, 'a> {
    /// Adds the names of a pattern, whose variables the innermost list binds.
    #[cycle(patterns)]
    #[tactic(auto, using(crate::proofs::Steps::adding_more, hm_names::proofs::Rows::pattern_falls))]
    pub(crate) fn pat(&mut self, pat: &'a Pat) -> Result<(), AllocError>
        ensures { OnOk result (self.new ≡ adding (pattern_uses self.old.known (home_of self.old.groups) pat.now) self.old) }
    {
        match &pat.kind {
            PatKind::Var(name) => Ok(self.binder(name, true)?),
            PatKind::Bound(name, inner) => {
                self.binder(name, true)?;
                self.pat(inner)?;
                Ok(())
            }
            PatKind::Con(name, args) => {
                self.constructor(name)?;
                self.pat_row(args)?;
                Ok(())
            }
            PatKind::Literal(_) => Ok(()),
            PatKind::Wild => Ok(()),
            PatKind::Tuple(parts) => Ok(self.pat_row(parts)?),
            PatKind::List(elements) => Ok(self.pat_row(elements)?),
            PatKind::Lazy(inner) => Ok(self.pat(inner)?),
        }
    }

    /// Adds the names of a row of patterns.
    #[cycle(patterns)]
    #[tactic(auto, using(crate::proofs::Steps::adding_more, hm_names::proofs::Rows::pattern_falls))]
    pub(crate) fn pat_row(&mut self, row: &'a [Pat]) -> Result<(), AllocError>
        ensures { OnOk result (self.new ≡ adding (patterns_uses self.old.known (home_of self.old.groups) (patterns row.now)) self.old) }
    {
        'row: for pat in row {
            self.pat(pat)?;
        }
        Ok(())
    }
}
