//! Names as they are written.
ghost use Rattle.std.specs.Prelude.{◌≡◌, ◌++◌, IfOk, string_bytes};
ghost use Rattle.hm_build_places.specs.TypesAt.{qualifier_text};

use hm_syntax::Name;
use hm_types::Text;
use std::alloc::{AllocError, Global};

/// Returns a qualifier with the dot after it.
fn qualifier_text(alloc: Global, qualifier: &Option<Text>) -> Result<String, AllocError>
    ensures { IfOk result (λ text. string_bytes text ≡ qualifier_text qualifier.now) }
{
    match qualifier {
        None => Ok(String::new(alloc)),
        Some(text) => {
            let text = text.as_str();
            format!(in alloc; "{text}.")
        }
    }
}

/// Returns a name as it is written.
pub(crate) fn written_text(alloc: Global, name: &Name) -> Result<String, AllocError>
    ensures { IfOk result (λ text. string_bytes text ≡ qualifier_text name.now.qualifier ++ name.now.text) }
{
    let mut text = qualifier_text(alloc, &name.qualifier)?;
    text.push_str(name.as_str())?;
    Ok(text)
}
