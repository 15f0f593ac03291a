//! The use of a single name.
ghost use Rattle.std.specs.Prelude.{◌≡◌, ◌++◌, OnOk};
ghost use Rattle.hm_uses.specs.Found.{use_as};
ghost use Rattle.hm_uses_declarations.specs.Senses.{sense_of};

use hm_syntax::Name;
use hm_uses::NameKind;
use hm_uses_declarations::{Meaning, Use};
use std::alloc::AllocError;

/// Adds a use.
pub(crate) fn add<'a>(
    found: &mut Vec<Use<'a>>,
    name: &'a Name,
    kind: NameKind,
    binds: bool,
    meaning: Meaning<'a>,
) -> Result<(), AllocError>
    ensures { OnOk result (found.new.items ≡ found.old.items ++ use_as kind binds name.now (sense_of meaning.entry)) }
{
    found.push(Use::new(name, kind, binds, meaning))?;
    Ok(())
}
