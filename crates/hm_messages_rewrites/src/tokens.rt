//! The change of a message about a token.
ghost use Rattle.std.specs.Prelude.{◌≡◌, [], IfNone, IfOk, IfSome, map, string_bytes};
ghost use Rattle.hm_messages_json.specs.Edits.{changed_of};
ghost use Rattle.hm_messages_rewrites.specs.Tokens.{IsBeyond, IsChangedBy, IsTokenChanged, apart, inserted, token_place};

use crate::writing::{rewritten, written};
use hm_lex::Place;
use hm_messages_excerpts::SourceLines;
use hm_messages_hints::{Mark, SyntaxHint, TokenChange};
use hm_messages_json::{Change, Position};
use std::alloc::{AllocError, Global};

/// The token that a message is about.
#[derive(Clone, Copy)]
pub struct PlacedToken<'a> {
    /// The place of the message.
    pub place: Place,
    /// The text of the token, or no text at the end of the source.
    pub text: &'a str,
    /// The position of the token, if it isn't at the place of the message.
    pub other: Option<Position>,
}

/// Returns a mark as a token of its own, whatever is next to it.
fn apart(mark: Mark) -> &'static str
    ensures { result.now ≡ apart mark }
{
    match mark {
        Mark::Semicolon => "; ",
        Mark::Comma => ", ",
        Mark::Equals => " = ",
        Mark::Arrow => " -> ",
        Mark::Open => "(",
        Mark::Close => ")",
        Mark::OpenSquare => "[",
        Mark::CloseSquare => "]",
        Mark::LeftBrace => "{ ",
        Mark::RightBrace => "}",
        Mark::Where => " where ",
        Mark::Let => " let ",
        Mark::In => " in ",
        Mark::If => " if ",
        Mark::Then => " then ",
        Mark::Else => " else ",
        Mark::Case => " case ",
        Mark::Of => " of ",
        Mark::OfType => " :: ",
        Mark::Backslash => " \\ ",
    }
}

/// Returns a mark on a line of its own.
fn on_a_line(alloc: Global, mark: Mark) -> Result<String, AllocError>
    ensures { IfOk result (λ text. string_bytes text ≡ inserted mark []) }
{
    let mut text = String::from_str(alloc, "\n")?;
    text.push_str(mark.text())?;
    Ok(text)
}

/// Returns the text of a mark that is put in before a token, or at the end of the source.
fn inserted(alloc: Global, mark: Mark, token: &str) -> Result<String, AllocError>
    ensures { IfOk result (λ text. string_bytes text ≡ inserted mark token.now) }
{
    if token.is_empty() {
        return Ok(on_a_line(alloc, mark)?);
    }
    String::from_str(alloc, apart(mark))
}

/// Returns the place of a token, if its line and its column have 32 bits.
fn place_of(token: &PlacedToken<'_>) -> Option<Place>
    ensures some { IfSome result (λ place. place ≡ token_place token.now.place token.now.other) }
    ensures none { IfNone result (IsBeyond token.now.other) }
{
    match token.other {
        None => Some(token.place),
        Some(other) => {
            let line = u32::try_from(other.line).ok()?;
            let column = u32::try_from(other.columns.bytes).ok()?;
            Some(Place { line, column })
        }
    }
}

/// Returns the change of the token at a place.
fn changed_by(
    alloc: Global,
    lines: &SourceLines<'_>,
    change: TokenChange,
    place: Place,
    token: &str,
) -> Result<Vec<Change>, AllocError>
    ensures { IfOk result (λ changes. IsChangedBy change lines.now place token.now (map changed_of changes.items)) }
{
    match change {
        TokenChange::Insert(mark) => {
            let text = inserted(alloc, mark, token)?;
            Ok(written(alloc, place, 0, text.as_str())?)
        }
        TokenChange::Replace(mark) => Ok(rewritten(alloc, lines, place, token, apart(mark))?),
        TokenChange::Remove => Ok(rewritten(alloc, lines, place, token, "")?),
    }
}

/// Returns the change that a hint says of a token: a mark that is put in before it or in place of it, or nothing in place of it. There is none if
/// the hint says no change, or if the token isn't at its place.
pub fn token_changes(
    alloc: Global,
    lines: &SourceLines<'_>,
    hint: SyntaxHint,
    token: &PlacedToken<'_>,
) -> Result<Vec<Change>, AllocError>
    ensures { IfOk result (λ changes. IsTokenChanged hint lines.now token.now.place token.now.text.now token.now.other (map changed_of changes.items)) }
{
    let SyntaxHint::Repaired(repair) = hint else {
        return Ok(Vec::new(alloc));
    };
    let Some(place) = place_of(token) else {
        return Ok(Vec::new(alloc));
    };
    Ok(changed_by(alloc, lines, repair.change, place, token.text)?)
}
