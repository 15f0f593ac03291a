//! The texts of expected types.
ghost use Rattle.std.specs.Prelude.{◌≡◌, IfOk, string_bytes};
ghost use Rattle.hm_messages_expected.specs.Expected.{IsShownAs};

use hm_messages_copies::declared_in;
use hm_messages_here::TypeHere;
use hm_messages_outline::{Lexed, Run, signature_of};
use hm_messages_types::{Texts, with_letters};
use std::alloc::{AllocError, Global};

/// Returns whether the text of a type is a type variable. Every value has such a type, so it says nothing.
pub(crate) fn is_type_variable(text: &str) -> bool {
    let text = text.as_bytes();
    match text.first() {
        Some(first) => {
            first.is_ascii_lowercase()
                && text.iter().all(|byte| byte.is_ascii_alphanumeric()
                    || *byte == b'_'
                    || *byte == b'\'')
        }
        None => true,
    }
}

/// Returns the signature of the definition among these declarations that a token is in.
pub(crate) fn signature_around(lexed: &Lexed<'_>, declarations: Run, token: usize) -> Option<Run> {
    let declared = declared_in(lexed, declarations, token)?;
    signature_of(lexed, declared.run.start)
}

/// Returns the text of the type of a name, with the letters of the signature of its definition if its type can be shown as it is written there.
pub(crate) fn shown_type(
    alloc: Global,
    lexed: &Lexed<'_>,
    signature: Option<Run>,
    typed: TypeHere,
) -> Result<String, AllocError>
    ensures { IfOk result (λ text. IsShownAs lexed.now.source.now (string_bytes typed.definition) (string_bytes typed.own) (string_bytes typed.here)
        (string_bytes text)) }
{
    if let Some(signature) = signature {
        let texts = Texts {
            own: typed.own.as_str(),
            expected: typed.here.as_str(),
            actual: typed.here.as_str(),
        };
        let definition = typed.definition.as_str();
        if let Some(lettered) = with_letters(alloc, lexed, signature, definition, &texts)? {
            return Ok(lettered.expected);
        }
    }
    Ok(typed.here)
}
