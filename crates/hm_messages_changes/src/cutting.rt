//! Makes a smaller source to search in: one module, in which each other definition with a signature is a hole.
//!
//! A trial of it has the same result as one of the whole source, because a definition depends only on the signatures of the others. No contract
//! depends on that: a part that is found is tried in the whole source again.

use crate::data::HOLE;
use hm_messages_outline::{
    Lexed, Run, bytes_in, declaration_end, has_clause, header_of, is_clause_of,
};
use hm_parse_grammar::Symbol;
use std::alloc::{AllocError, Global};

/// A smaller source, and the number of its byte at which the searched definition begins.
#[derive(Drop)]
pub struct Cut {
    pub text: Vec<u8>,
    pub definition: usize,
}

/// Appends the bytes of tokens.
fn add_tokens(text: &mut Vec<u8>, lexed: &Lexed<'_>, run: Run) -> Result<(), AllocError> {
    let bytes = bytes_in(lexed.source, lexed.start(run.start), lexed.end(run));
    Ok(text.extend_from_slice(bytes)?)
}

/// The text so far, and its last signature and hole.
#[derive(Drop)]
struct Writer {
    text: Vec<u8>,
    /// The last signature.
    signature: Run,
    /// The number of the token with the name of the last definition that is a hole.
    hidden: Option<usize>,
}

impl Writer {
    /// Appends a declaration, or a hole in place of its right sides if it is a clause of a variable with a signature.
    fn add(&mut self, lexed: &Lexed<'_>, run: Run) -> Result<(), AllocError> {
        let name = run.start;
        let after = lexed.outline.symbol(name.saturating_add(1));
        if lexed.outline.symbol(name).is(Symbol::Var) && after.begins_signature() {
            self.signature = run;
            return add_tokens(&mut self.text, lexed, run);
        }
        if !has_clause(lexed, self.signature, name) {
            return add_tokens(&mut self.text, lexed, run);
        }
        if let Some(hidden) = self.hidden {
            if is_clause_of(lexed.source, lexed.tokens, lexed.outline, name, hidden) {
                return Ok(());
            }
        }
        self.hidden = Some(name);
        let end = name.saturating_add(1);
        add_tokens(&mut self.text, lexed, Run { start: name, end })?;
        self.text.extend_from_slice(b" = ")?;
        Ok(self.text.extend_from_slice(HOLE.as_bytes())?)
    }
}

// Why: docs/DECISIONS.md, "A smaller source".
/// Returns the module that a definition is in, with holes in place of other definitions, or `None` if the definition isn't in a module.
pub fn cut_of(
    alloc: Global,
    lexed: &Lexed<'_>,
    definition: Run,
) -> Result<Option<Cut>, AllocError> {
    let Some(header) = header_of(lexed.outline, definition.start) else {
        return Ok(None);
    };
    let close = lexed.outline.closing(header.end.saturating_sub(1));
    let mut writer = Writer {
        text: Vec::new(alloc),
        signature: Run { start: 0, end: 0 },
        hidden: None,
    };
    add_tokens(&mut writer.text, lexed, header)?;
    let mut place = 0usize;
    let mut at = header.end;
    for _ in header.end..close {
        if at >= close {
            break;
        }
        let end = declaration_end(lexed.outline, at);
        if at <= definition.start && definition.start < end {
            let start = at;
            let end = definition.end.max(end);
            let before = lexed
                .start(definition.start)
                .saturating_sub(lexed.start(start));
            place = writer.text.len().saturating_add(before);
            add_tokens(&mut writer.text, lexed, Run { start, end })?;
            at = end.saturating_add(1);
        } else {
            writer.add(lexed, Run { start: at, end })?;
            at = end.saturating_add(1);
        }
        writer.text.extend_from_slice(b";")?;
    }
    let mut text = writer.text;
    text.extend_from_slice(b"}")?;
    Ok(Some(Cut {
        text,
        definition: place,
    }))
}
