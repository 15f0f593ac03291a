//! Operators and line comments.
ghost use Rattle.std.specs.Prelude.{◌≡◌, ◌+◌, ◌<◌, ◌≤◌, length, IsTrue, ◌↔◌};
ghost use Rattle.hm_lex.specs.declared.byte_class.ByteClass.TheVariants.{Symbol};
ghost use Rattle.std.specs.List.{list_all};
ghost use Rattle.hm_lex.specs.Symbols.{is_dash};
ghost use Rattle.hm_lex.specs.Next.{IsNext, StartsWith, are_dashes};

use crate::item::Item;
use crate::next::Next;
use crate::runs::{line_len, symbols_len};
use crate::token::Kind;
use crate::words::is_operator;

fn only_dashes(bytes: &[u8]) -> bool
    ensures { result ≡ list_all is_dash bytes.now }
{
    bytes.iter().all(|byte| *byte == b'-')
}

/// Returns whether the bytes are two or more dashes, and nothing else.
fn are_dashes(bytes: &[u8]) -> bool
    ensures { result ≡ are_dashes bytes.now }
{
    bytes.len() >= 2 && only_dashes(bytes)
}

/// Returns the operator or the line comment at the front.
pub(crate) fn symbols(bytes: &[u8]) -> Next
    requires { StartsWith Symbol bytes.now }
    ensures { IsNext bytes.now result }
{
    let len = symbols_len(bytes);
    let run = &bytes[..len];
    if are_dashes(run) {
        let end = line_len(bytes);
        match std::str::from_utf8(&bytes[..end]) {
            Ok(_) => Next::Item(Item::Comment, end),
            Err(_) => Next::Nothing,
        }
    } else if is_operator(run) {
        Next::Item(Item::Lexeme(Kind::Op), len)
    } else {
        Next::Nothing
    }
}
