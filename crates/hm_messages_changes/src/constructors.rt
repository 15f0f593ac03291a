//! A source with a constructor in front of a part, and the constructors that are tried there.
ghost use Rattle.std.specs.Prelude.{◌≡◌, IfOk};
ghost use Rattle.hm_messages_changes.specs.Holes.{IsPartOf};
ghost use Rattle.hm_messages_changes.specs.Constructors.{with_constructor};

use crate::data::SourceRange;
use hm_messages_outline::{Lexed, Run, declaration_end, header_of, name_at};
use hm_parse_grammar::Symbol;
use std::alloc::{AllocError, Global};

/// The most constructors of a module that are tried.
const MOST_CONSTRUCTORS: usize = 12;

/// A constructor in front of an expression: one of Prelude, or the one of the module with this number. A smaller source has the same ones.
#[derive(Clone, Copy)]
pub enum Wrapper {
    Just,
    Right,
    Left,
    Own(usize),
}

/// Returns the source with a constructor of this name in front of a part.
pub fn with_constructor(
    alloc: Global,
    source: &[u8],
    name: &str,
    part: SourceRange,
) -> Result<Vec<u8>, AllocError>
    requires { IsPartOf source.now part }
    ensures { IfOk result (λ made. made.items ≡ with_constructor source.now name.now part) }
{
    let mut made = Vec::from_slice(alloc, &source[..part.from])?;
    made.extend_from_slice(b"(")?;
    made.extend_from_slice(name.as_bytes())?;
    made.extend_from_slice(b" (")?;
    made.extend_from_slice(&source[part.from..part.to])?;
    made.extend_from_slice(b"))")?;
    made.extend_from_slice(&source[part.to..])?;
    Ok(made)
}

/// Returns whether a token is the name of a constructor with arguments in a declaration of a type.
fn is_constructor(lexed: &Lexed<'_>, declaration: Run, at: usize) -> bool {
    let outline = lexed.outline;
    let next = at.saturating_add(1);
    let follows_mark = match outline.symbol(at.saturating_sub(1)) {
        Symbol::Equals | Symbol::Bar => true,
        _ => false,
    };
    follows_mark
        && outline.symbol(at).is(Symbol::Con)
        && next < declaration.end
        && !outline.symbol(next).is(Symbol::Bar)
}

/// Returns the constructors with arguments that the module declares in which a token is, by their tokens.
fn constructors_of(
    alloc: Global,
    lexed: &Lexed<'_>,
    token: usize,
) -> Result<Vec<usize>, AllocError> {
    let mut found = Vec::new(alloc);
    let Some(header) = header_of(lexed.outline, token) else {
        return Ok(found);
    };
    let close = lexed.outline.closing(header.end.saturating_sub(1));
    let mut declaration = Run { start: 0, end: 0 };
    for at in header.end..close {
        match lexed.outline.symbol(at) {
            Symbol::Data | Symbol::Newtype => {
                let end = declaration_end(lexed.outline, at);
                declaration = Run { start: at, end };
            }
            _ => {}
        }
        if declaration.has(at) && is_constructor(lexed, declaration, at) {
            found.push(at)?;
        }
    }
    Ok(found)
}

/// Returns the name of a constructor, which may be one of the module in which a token of a source is.
pub fn constructor_name<'s>(
    alloc: Global,
    source: &'s [u8],
    lexed: &Lexed<'_>,
    wrapper: Wrapper,
    token: usize,
) -> Result<Option<&'s str>, AllocError> {
    let number = match wrapper {
        Wrapper::Just => return Ok(Some("Just")),
        Wrapper::Right => return Ok(Some("Right")),
        Wrapper::Left => return Ok(Some("Left")),
        Wrapper::Own(number) => number,
    };
    let own = constructors_of(alloc, lexed, token)?;
    if number >= own.len() || own[number] >= lexed.tokens.len() {
        return Ok(None);
    }
    Ok(Some(name_at(source, &lexed.tokens[own[number]])))
}

// Why: docs/DECISIONS.md, "Constructors put in".
/// Returns the constructors that are tried in front of an expression: those of the module in which a token is, and three of Prelude.
pub fn wrappers_of(
    alloc: Global,
    lexed: &Lexed<'_>,
    token: usize,
) -> Result<Vec<Wrapper>, AllocError> {
    let own = constructors_of(alloc, lexed, token)?;
    let mut found = Vec::new(alloc);
    for number in 0..own.len().min(MOST_CONSTRUCTORS) {
        found.push(Wrapper::Own(number))?;
    }
    found.extend_from_slice(&[Wrapper::Just, Wrapper::Right, Wrapper::Left])?;
    Ok(found)
}
