//! Moves the tokens of a text to where they are in a source.
ghost use Rattle.std.specs.Prelude.{◌≡◌, ◌+◌, ◌≤◌, ◌<◌, ◌^◌, All, List, ℕ, length, map, take};
ghost use Rattle.std.specs.List.{count_by};
ghost use Rattle.hm_lex.specs.Cut.{is_line_end};
ghost use Rattle.hm_lex.specs.Faults.{max_source_len};
ghost use Rattle.hm_run_tokens.specs.Parts.{IsPlacedWithin, moved};

use hm_lex::{Place, Token};

/// Returns the number of line ends.
fn lines_in(text: &[u8]) -> usize
    ensures count { result ≡ count_by is_line_end text.now }
    ensures few { result ≤ length text.now }
{
    let mut lines: usize = 0;
    'bytes: for number in 0..text.len() {
        if text[number] == b'\n' {
            lines += 1;
        }
    }
    lines
}

/// Returns a token after further bytes and lines.
fn moved_by(token: Token, bytes: u32, lines: u32) -> Token
    requires start { token.start + bytes < 2 ^ 32 }
    requires end { token.end + bytes < 2 ^ 32 }
    requires line { token.place.line + lines < 2 ^ 32 }
    ensures { (before : List ℕ) → bytes ≡ length before → lines ≡ count_by is_line_end before → result ≡ moved before token }
{
    Token {
        kind: token.kind,
        start: bytes + token.start,
        end: bytes + token.end,
        place: Place {
            line: lines + token.place.line,
            column: token.place.column,
        },
    }
}

/// Moves the tokens of a text to where they are if these lines come before it.
pub(crate) fn move_after(lines: &[u8], len: usize, tokens: Vec<Token>) -> Vec<Token>
    requires short { length lines.now + len ≤ max_source_len }
    requires within { All (IsPlacedWithin len) tokens.items }
    ensures { result.items ≡ map (moved lines.now) tokens.items }
{
    let bytes = lines.len() as u32;
    let ends = lines_in(lines) as u32;
    let mut moved = tokens;
    'tokens: for number in 0..moved.len() {
        moved[number] = moved_by(moved[number], bytes, ends);
    }
    moved
}
