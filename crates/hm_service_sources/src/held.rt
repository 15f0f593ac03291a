//! Held sources.
ghost use Rattle.std.specs.Prelude.{◌≡◌, IfOk, IfErr, List, ℕ, [], true};
ghost use Rattle.hm_service_sources.specs.Standing.{IsReadAs, StandsFor};

use hm_run_sources::{SetError, source_tokens, spelled_modules};
use std::alloc::{AllocError, Global};

/// A source that is held while it is edited.
#[derive(Debug, Drop)]
pub struct HeldSource {
    /// The text as it is now.
    pub text: Vec<u8>,
    /// The last of its texts that could be read. At the beginning it is empty.
    pub standing: Vec<u8>,
    /// Whether the text as it is now can be read.
    pub is_read: bool,
}

impl HeldSource {
    /// Returns a source with an empty text, which spells no modules.
    pub fn new(alloc: Global) -> HeldSource
        ensures text { result.text.items ≡ [] }
        ensures standing { StandsFor [] result.standing.items }
        ensures read { result.is_read ≡ true }
    {
        HeldSource {
            text: Vec::new(alloc),
            standing: Vec::new(alloc),
            is_read: true,
        }
    }
}

/// Returns whether a text can be read: whether it spells modules.
pub(crate) fn is_readable(alloc: Global, text: &[u8]) -> Result<bool, AllocError>
    ensures { IfOk result (IsReadAs text.now) }
{
    let tokens = match source_tokens(alloc, 1, text) {
        Ok(tokens) => tokens,
        Err(SetError::Refused(_fault)) => return Ok(false),
        Err(SetError::Memory) => return Err(AllocError),
    };
    match spelled_modules(alloc, 1, text, tokens.as_slice()) {
        Ok(_modules) => Ok(true),
        Err(SetError::Refused(_fault)) => Ok(false),
        Err(SetError::Memory) => Err(AllocError),
    }
}
