//! The places of bytes and of parts of a source.
ghost use Rattle.std.specs.Prelude.{◌≡◌, ◌≤◌, ◌<◌, ◌^◌, IfSome, None, length, ◌+◌, take};
ghost use Rattle.hm_messages_changes.specs.Holes.{IsPartOf};
ghost use Rattle.hm_lex.specs.Cut.{place_after};
ghost use Rattle.hm_lex.specs.Scan.{place_step};

use crate::data::SourceRange;
use hm_lex::{Place, Token};
use hm_messages_outline::Run;

/// Returns the bytes of a run of tokens, from one number up to another.
pub fn bytes_of(tokens: &[Token], run: Run, source: &[u8]) -> Option<(usize, usize)>
    ensures ordered { IfSome result (λ r. r.0 ≤ r.1) }
    ensures within { IfSome result (λ r. r.1 ≤ length source.now) }
    ensures short { IfSome result (λ r. r.1 < 2 ^ 32) }
{
    let last = run.end.checked_sub(1)?;
    if run.start >= tokens.len() || last >= tokens.len() {
        return None;
    }
    let from = tokens[run.start].start as usize;
    let to = tokens[last].end as usize;
    if from <= to && to <= source.len() {
        return Some((from, to));
    }
    None
}

/// Returns a part of a source.
fn part_at(source: &[u8], from: usize, to: usize) -> SourceRange
    requires some { from < to }
    requires within { to ≤ length source.now }
    requires short { to < 2 ^ 32 }
    ensures { IsPartOf source.now result }
{
    SourceRange {
        from,
        to,
        start: place_of_byte(source, from),
        end: place_of_byte(source, to - 1),
    }
}

/// Returns the part of a source with these tokens.
pub fn part_of(tokens: &[Token], run: Run, source: &[u8]) -> Option<SourceRange>
    ensures { IfSome result (IsPartOf source.now) }
{
    let (from, to) = bytes_of(tokens, run, source)?;
    if from >= to {
        return None;
    }
    Some(part_at(source, from, to))
}

/// Returns the place after a byte at a place.
fn past(place: Place, byte: u8) -> Place
    requires line { place.line + 1 < 2 ^ 32 }
    requires column { place.column + 1 < 2 ^ 32 }
    ensures { result ≡ place_step place byte }
{
    if byte == b'\n' {
        Place {
            line: place.line + 1,
            column: 1,
        }
    } else {
        Place {
            line: place.line,
            column: place.column + 1,
        }
    }
}

/// Returns the place after a text.
fn place_after_all(text: &[u8]) -> Place
    requires { length text.now + 1 < 2 ^ 32 }
    ensures { result ≡ place_after text.now }
{
    let mut place = Place { line: 1, column: 1 };
    for byte in text {
        place = past(place, *byte);
    }
    place
}

/// Returns the place after the first bytes of a source.
pub fn place_of_byte(source: &[u8], at: usize) -> Place
    requires within { at ≤ length source.now }
    requires short { at + 1 < 2 ^ 32 }
    ensures { result ≡ place_after (take at source.now) }
{
    place_after_all(&source[..at])
}
