//! Removes patterns: puts `_` in place of one, and binds each of its variables to an expression of every type.

use crate::data::{Frame, HOLE};
use crate::edits::{Edit, Filling, copied, in_place};
use crate::wildcards::{closing, opening};
use hm_messages_outline::{Lexed, Run, TermPart, one};
use hm_parse_grammar::Symbol;
use std::alloc::AllocError;

/// The place where the variables of a removed pattern are bound.
#[derive(Clone, Copy)]
pub struct BindingPlace {
    pub frame: Frame,
    /// The byte at which the bindings are put in.
    pub at: usize,
}

/// Returns where the variables of a pattern of this clause, alternative or lambda are bound.
pub fn binding_place(lexed: &Lexed<'_>, around: Run) -> Option<BindingPlace> {
    let outline = lexed.outline;
    let Run { start, end } = around;
    if outline.symbol(start).is(Symbol::Backslash) {
        let arrow = outline.find(start.saturating_add(1), end, Symbol::Arrow)?;
        return Some(BindingPlace {
            frame: Frame::Let,
            at: lexed.start(arrow.saturating_add(1)),
        });
    }
    match outline.find(start, end, Symbol::Where) {
        Some(word) => Some(BindingPlace {
            frame: Frame::Front,
            at: lexed.end(one(word.saturating_add(1))),
        }),
        None => Some(BindingPlace {
            frame: Frame::Where,
            at: lexed.end(around),
        }),
    }
}

/// Returns an edit that puts something in at a spot.
fn put(spot: BindingPlace, by: Filling) -> Edit {
    Edit {
        from: spot.at,
        to: spot.at,
        by,
    }
}

/// Appends edits that bind the variables of a pattern.
fn add_bindings(
    edits: &mut Vec<Edit>,
    lexed: &Lexed<'_>,
    spot: BindingPlace,
    pattern: Run,
) -> Result<(), AllocError> {
    for at in pattern.start..pattern.end {
        if lexed.outline.symbol(at).is(Symbol::Var) {
            let binding = [
                put(spot, copied(lexed, one(at))),
                put(spot, Filling::Text(" = ")),
                put(spot, Filling::Text(HOLE)),
                put(spot, Filling::Text(" ; ")),
            ];
            edits.extend_from_slice(&binding)?;
        }
    }
    Ok(())
}

/// Appends edits that remove patterns of one clause, alternative or lambda.
pub fn add_open_patterns(
    edits: &mut Vec<Edit>,
    lexed: &Lexed<'_>,
    around: Run,
    patterns: &[TermPart],
) -> Result<(), AllocError> {
    let Some(spot) = binding_place(lexed, around) else {
        return Ok(());
    };
    for pattern in patterns {
        edits.push(in_place(lexed, pattern.run, Filling::Text("_")))?;
    }
    edits.push(put(spot, Filling::Text(opening(spot.frame))))?;
    for pattern in patterns {
        add_bindings(edits, lexed, spot, pattern.run)?;
    }
    edits.push(put(spot, Filling::Text(closing(spot.frame))))?;
    Ok(())
}
