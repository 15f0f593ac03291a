//! Faults of lists: duplicates, missing names, and the faults of declaration lists (Report, sections 4.2, 4.4.1 and 4.4.3).
ghost use Rattle.std.specs.Prelude.{◌≡◌, [], OnOk, map};
ghost use Rattle.hm_syntax.specs.Lists.{declarations};
ghost use Rattle.hm_names.specs.Variables.{texts};
ghost use Rattle.hm_names.specs.Faults.Phases.{fault};
ghost use Rattle.hm_names.specs.Found.{noting, repeated, outside, list_faults};

use crate::list_faults::add_list_faults;
use crate::repeats::{add_outside, add_repeated};
use crate::resolving::Resolving;
use hm_names::{Kind, LentNames};
use hm_syntax::Decl;
use std::alloc::{AllocError, Global};

impl Resolving<'_> {
    /// Adds a fault for each name that comes after another with the same text.
    pub(crate) fn repeated(
        &mut self,
        alloc: Global,
        kind: Kind,
        names: &LentNames<'_>,
    ) -> Result<(), AllocError>
        ensures { OnOk result (self.new ≡ noting (map (fault kind) (repeated [] names.now)) self.old) }
    {
        add_repeated(alloc, &mut self.faults, kind, names)?;
        Ok(())
    }

    /// Adds a fault for each name whose text isn't among these.
    pub(crate) fn outside(
        &mut self,
        alloc: Global,
        kind: Kind,
        known: &LentNames<'_>,
        names: &LentNames<'_>,
    ) -> Result<(), AllocError>
        ensures { OnOk result (self.new ≡ noting (map (fault kind) (outside (texts known.now) names.now)) self.old) }
    {
        add_outside(alloc, &mut self.faults, kind, known, names)?;
        Ok(())
    }

    /// Adds the faults of a declaration list: duplicates, signatures without a binding, and clauses of another length than the first of their
    /// binding.
    pub(crate) fn note_list(&mut self, alloc: Global, decls: &[Decl]) -> Result<(), AllocError>
        ensures { OnOk result (self.new ≡ noting (list_faults (declarations decls.now)) self.old) }
    {
        add_list_faults(alloc, &mut self.faults, decls)?;
        Ok(())
    }
}
