//! Where the type of a name is read.
ghost use Rattle.std.specs.Prelude.{◌≡◌, IfSome};
ghost use Rattle.hm_messages_copies.specs.Changes.{part_of};

use crate::data::{Copied, NamePart, Point, Scoped};
use crate::definitions::{Declared, clause_with, is_definition, is_signed, name_of, variable_of};
use hm_messages_changes::{Span, bytes_of, local_of};
use hm_messages_outline::{Lexed, Outline, Run, declaration_end, name_at, one, past_semicolons};
use hm_parse_grammar::Symbol;
use std::alloc::{AllocError, Global};

/// Where the type of a name is read, and in copies of how many definitions.
#[derive(Clone, Copy)]
pub struct TypeSpot {
    pub point: Point,
    pub depth: usize,
    /// Where the name begins.
    pub byte: usize,
}

/// Returns the first of these tokens with one of two symbols, outside brackets that open among them.
fn first_of(outline: &Outline, run: Run, one: Symbol, other: Symbol) -> usize {
    let first = outline.find(run.start, run.end, one);
    let second = outline.find(run.start, run.end, other);
    first.unwrap_or(run.end).min(second.unwrap_or(run.end))
}

/// Returns whether a token is where a declaration has the names that it declares.
fn is_declared_name(lexed: &Lexed<'_>, declared: Declared, token: usize) -> bool {
    let run = declared.run;
    if !is_definition(lexed.outline, run) {
        return true;
    }
    let Some(clause) = clause_with(lexed.outline, run, token) else {
        return false;
    };
    if let Some(variable) = variable_of(lexed, clause) {
        return variable == token;
    }
    token < first_of(lexed.outline, clause, Symbol::Equals, Symbol::Bar)
}

/// Where a declaration is put in.
#[derive(Clone, Copy)]
struct Room {
    at: usize,
    scoped: Scoped,
}

/// Returns where a declaration is in the scope of the patterns of a clause or an alternative.
fn room_of(lexed: &Lexed<'_>, run: Run) -> Room {
    match lexed.outline.find(run.start, run.end, Symbol::Where) {
        Some(word) => Room {
            at: lexed.end(one(word.saturating_add(1))),
            scoped: Scoped::Front,
        },
        None => Room {
            at: lexed.end(run),
            scoped: Scoped::Where,
        },
    }
}

/// Returns where a declaration is in the scope of a token's pattern, if the lambda or the alternatives that begin here have it.
fn room_in(lexed: &Lexed<'_>, at: usize, run: Run, token: usize) -> Option<Room> {
    let outline = lexed.outline;
    let next = at.saturating_add(1);
    if outline.symbol(at).is(Symbol::Backslash) {
        let arrow = outline.find(next, run.end, Symbol::Arrow)?;
        if arrow < token {
            return None;
        }
        return Some(Room {
            at: lexed.start(arrow.saturating_add(1)),
            scoped: Scoped::Let,
        });
    }
    if !outline.symbol(at).is(Symbol::Of) || outline.closing(next) <= token {
        return None;
    }
    let list = Run {
        start: next.saturating_add(1),
        end: outline.closing(next),
    };
    let alternative = clause_with(outline, list, token)?;
    if first_of(outline, alternative, Symbol::Arrow, Symbol::Bar) < token {
        return None;
    }
    Some(room_of(lexed, alternative))
}

/// Returns where a declaration is in the scope of the pattern of a definition that a token is in.
fn room_around(lexed: &Lexed<'_>, run: Run, token: usize) -> Option<Room> {
    for at in run.start..token {
        if let Some(room) = room_in(lexed, at, run, token) {
            return Some(room);
        }
    }
    let clause = clause_with(lexed.outline, run, token)?;
    if first_of(lexed.outline, clause, Symbol::Equals, Symbol::Bar) < token {
        return None;
    }
    Some(room_of(lexed, clause))
}

/// Returns where the type of a name is read, by the declarations that its token is in.
pub fn spot_of(
    lexed: &Lexed<'_>,
    around: &[Declared],
    token: usize,
    name: NamePart,
) -> Option<TypeSpot>
    ensures { IfSome result (λ s. part_of s.point ≡ name.part) }
{
    let last = around.last()?;
    let run = last.run;
    let depth = around.len();
    let byte = name.part.from;
    if name.binds || !is_definition(lexed.outline, run) {
        if is_declared_name(lexed, *last, token) {
            return Some(TypeSpot {
                point: Point::Variable(name.part, lexed.end(run), Scoped::After),
                depth: depth.saturating_sub(1),
                byte,
            });
        }
        let room = room_around(lexed, run, token)?;
        return Some(TypeSpot {
            point: Point::Variable(name.part, room.at, room.scoped),
            depth,
            byte,
        });
    }
    Some(TypeSpot {
        point: Point::Expression(name.part),
        depth,
        byte,
    })
}

/// Returns the names at the beginnings of the clauses of a definition, if it has a signature.
fn heads_of(alloc: Global, lexed: &Lexed<'_>, declared: Declared) -> Result<Vec<Span>, AllocError> {
    let mut heads = Vec::new(alloc);
    if !is_signed(lexed, declared) {
        return Ok(heads);
    }
    let run = declared.run;
    let mut at = run.start;
    for _ in run.start..run.end {
        if at >= run.end {
            return Ok(heads);
        }
        let end = declaration_end(lexed.outline, at);
        if let Some(head) = variable_of(lexed, Run { start: at, end }) {
            heads.push(Span {
                from: lexed.start(head),
                to: lexed.end(one(head)),
            })?;
        }
        at = past_semicolons(lexed.outline, end);
    }
    Ok(heads)
}

/// Returns the tuple of the variables that a pattern binding binds.
fn tuple_of(alloc: Global, lexed: &Lexed<'_>, run: Run) -> Result<String, AllocError> {
    let end = first_of(lexed.outline, run, Symbol::Equals, Symbol::Bar);
    let mut tuple = String::from_str(alloc, "(")?;
    let mut separator = "";
    for at in run.start..end.min(lexed.tokens.len()) {
        if lexed.outline.symbol(at).is(Symbol::Var) {
            tuple.push_str(separator)?;
            tuple.push_str(name_at(lexed.source, &lexed.tokens[at]))?;
            separator = ", ";
        }
    }
    tuple.push_str(")")?;
    Ok(tuple)
}

/// A definition, with the names at the beginnings of its clauses if it has a signature, and the tuple of its variables if it is a pattern binding.
#[derive(Drop)]
pub struct Headed {
    run: Run,
    heads: Vec<Span>,
    tuple: Option<String>,
}

/// Returns definitions with the names at the beginnings of the clauses of those that have signatures, and with the variables of pattern bindings.
pub fn with_heads(
    alloc: Global,
    lexed: &Lexed<'_>,
    definitions: &[Declared],
) -> Result<Vec<Headed>, AllocError> {
    let mut all = Vec::new(alloc);
    for declared in definitions {
        let heads = heads_of(alloc, lexed, *declared)?;
        let tuple = match variable_of(lexed, declared.run) {
            Some(_) => None,
            None => Some(tuple_of(alloc, lexed, declared.run)?),
        };
        all.push(Headed {
            run: declared.run,
            heads,
            tuple,
        })?;
    }
    Ok(all)
}

/// Returns how the copies of these definitions of a source are written, around a part that begins at a byte. Returns `None` if one of them isn't in the source.
///
/// A local pattern binding has the tuple of its variables for a name, so its copy is in one list with them. At top level its name is `()`.
pub fn copies_of<'a>(
    alloc: Global,
    source: &'a [u8],
    lexed: &Lexed<'_>,
    definitions: &'a [Headed],
    byte: usize,
) -> Result<Option<Vec<Copied<'a>>>, AllocError> {
    let mut copies = Vec::new(alloc);
    for definition in definitions {
        let Some((from, to)) = bytes_of(lexed.tokens, definition.run, source) else {
            return Ok(None);
        };
        let name = match &definition.tuple {
            Some(tuple) if !copies.is_empty() => tuple.as_str(),
            _ => name_of(source, lexed, definition.run),
        };
        copies.push(Copied {
            whole: Span { from, to },
            name,
            value: name,
            local: local_of(name, definition.heads.as_slice(), byte),
        })?;
    }
    Ok(Some(copies))
}
