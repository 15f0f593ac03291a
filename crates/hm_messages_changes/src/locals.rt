//! How a definition is written where it is local.

use crate::data::{Local, Span};
use hm_messages_outline::{Lexed, Run, declaration_end, one, past_semicolons, signature_of};
use std::alloc::{AllocError, Global};

/// The name of a definition with a signature where it is local.
const LOCAL: &str = "part'local";

/// Returns how a definition is written where it is local, if it has its own name there.
pub fn own_name(name: &str) -> Local<'_> {
    Local {
        name,
        before: &[],
        after: &[],
    }
}

/// Returns the names at the beginnings of the clauses of a definition, in order, if it has a signature.
pub fn signed_heads(
    alloc: Global,
    lexed: &Lexed<'_>,
    binding: Run,
) -> Result<Vec<Span>, AllocError> {
    let mut heads = Vec::new(alloc);
    if signature_of(lexed, binding.start).is_none() {
        return Ok(heads);
    }
    let mut at = binding.start;
    for _ in binding.start..binding.end {
        if at >= binding.end {
            return Ok(heads);
        }
        heads.push(Span {
            from: lexed.start(at),
            to: lexed.end(one(at)),
        })?;
        at = past_semicolons(lexed.outline, declaration_end(lexed.outline, at));
    }
    Ok(heads)
}

// Why: docs/DECISIONS.md, "Local definitions with signatures".
/// Returns how a definition is written where it is local, with a part that begins at a byte.
pub fn local_of<'a>(name: &'a str, heads: &'a [Span], byte: usize) -> Local<'a> {
    if heads.is_empty() {
        return own_name(name);
    }
    let count = heads.iter().take_while(|head| head.from < byte).count();
    Local {
        name: LOCAL,
        before: &heads[..count],
        after: &heads[count..],
    }
}
