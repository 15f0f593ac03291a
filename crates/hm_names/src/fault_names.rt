//! Faults at names.

ghost use Rattle.std.specs.Prelude.{◌≡◌, IfOk};
ghost use Rattle.hm_names.specs.Faults.Phases.{fault, written};

use crate::faults::{Fault, Kind};
use hm_syntax::Name;
use hm_types::Text;
use std::alloc::{AllocError, Global};

/// Returns a name as it is written.
pub(crate) fn written(alloc: Global, name: &Name) -> Result<Text, AllocError>
    ensures { IfOk result (λ t. t ≡ written name.now) }
{
    let mut text = String::new(alloc);
    if let Some(qualifier) = &name.qualifier {
        text.push_str(qualifier.as_str())?;
        text.push_str(".")?;
    }
    text.push_str(name.as_str())?;
    Text::new(text)
}

/// Returns the fault of this kind at a name.
pub fn fault_at(alloc: Global, kind: Kind, name: &Name) -> Result<Fault, AllocError>
    ensures { IfOk result (λ f. f ≡ fault kind name.now) }
{
    let text = written(alloc, name)?;
    Ok(Fault {
        place: name.place,
        kind,
        name: text,
    })
}
