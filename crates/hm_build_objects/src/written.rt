//! Things that are written as JSON values, and lists of them.
ghost use Rattle.std.specs.Prelude.{◌≡◌, IfOk, map};
ghost use Rattle.serde_json.specs.Data.{Data, array};
ghost use Rattle.serde_json.specs.View.{items_of, view};

use serde_json::Value;
use std::alloc::{AllocError, Global};

/// Something that is written as a JSON value.
pub(crate) trait Written {
    ghost data_of: { Self → Data };

    /// Returns the value.
    fn value(&self, alloc: Global) -> Result<Value, AllocError>
        ensures { IfOk result (λ value. view value ≡ data_of self.now) };
}

/// Returns an array of things, in order.
pub(crate) fn array_of<E: Written>(alloc: Global, things: &[E]) -> Result<Value, AllocError>
    ensures { IfOk result (λ value. view value ≡ array (items_of (map E.data_of things.now))) }
{
    let mut items = Vec::new(alloc);
    for thing in things {
        items.push(thing.value(alloc)?)?;
    }
    Ok(Value::Array(items))
}
