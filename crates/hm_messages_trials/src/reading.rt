//! The source of a module with its tokens. One reading serves all notes of the module.
ghost use Rattle.std.specs.Prelude.{◌≡◌, None, IfOk};
ghost use Rattle.hm_messages_trials.specs.Limits.{IsUsedUp};

use crate::costs::Effort;
use hm_lex::{LexFault, Token, lex};
use hm_messages_outline::{Lexed, Outline};
use hm_names::Fault;
use std::alloc::{AllocError, Global};

/// The longest source whose faults are explained, in bytes.
const LONGEST: usize = 1 << 16;

/// The tokens of a source with their outline.
#[derive(Drop)]
pub struct Reading {
    tokens: Vec<Token>,
    outline: Outline,
}

impl Reading {
    /// Returns the source with its tokens.
    pub fn lexed<'a>(&'a self, source: &'a [u8]) -> Lexed<'a>
        ensures { result.source.now ≡ source.entry.now }
    {
        Lexed {
            source,
            tokens: self.tokens.as_slice(),
            outline: &self.outline,
        }
    }
}

/// A type fault, all faults of its module, and the reading of the module's source.
#[derive(Clone, Copy)]
pub struct TypeFault<'a> {
    pub fault: &'a Fault,
    pub faults: &'a [Fault],
    pub reading: &'a Reading,
}

/// Returns the tokens of a source with their outline, if it has tokens.
pub fn read(alloc: Global, source: &[u8]) -> Result<Option<Reading>, AllocError> {
    let tokens = match lex(alloc, source) {
        Ok(tokens) => tokens,
        Err(LexFault::Memory) => return Err(AllocError),
        Err(_) => return Ok(None),
    };
    let outline = Outline::of(alloc, source, tokens.as_slice())?;
    Ok(Some(Reading { tokens, outline }))
}

/// Returns the reading of a source for the notes of its type faults. `effort` is less by what that costs.
///
/// None for a source of more than 65,536 bytes, for one that has no tokens, or if the effort doesn't pay for it.
///
/// # Errors
///
/// Memory ran out.
pub fn reading_of(
    alloc: Global,
    source: &[u8],
    effort: &mut Effort,
) -> Result<Option<Reading>, AllocError>
    ensures none { IsUsedUp effort.old → IfOk result (λ found. found ≡ None) }
    ensures stays { IsUsedUp effort.old → IsUsedUp effort.new }
{
    effort.begin();
    if source.len() > LONGEST {
        return Ok(None);
    }
    if !effort.pays(source.len()) {
        return Ok(None);
    }
    Ok(read(alloc, source)?)
}
