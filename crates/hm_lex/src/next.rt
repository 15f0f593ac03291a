//! The longest item at the front of a text.
ghost use Rattle.std.specs.Prelude.{◌≡◌, ◌<◌, length};
ghost use Rattle.hm_lex.specs.Next.{IsNext};

use crate::byte_class::ByteClass;
use crate::comments::special;
use crate::integers::integer;
use crate::item::Item;
use crate::names::{name, variable};
use crate::quotes::{character, string};
use crate::symbols::symbols;

/// The item at the front of a text.
#[derive(Clone, Copy)]
pub(crate) enum Next {
    /// An item of this many bytes.
    Item(Item, usize),
    OpenComment,
    Nothing,
}

// Why: docs/DECISIONS.md, "A fault is a shape".
/// Returns the longest item at the front of a text. The text must not be empty.
pub(crate) fn next_item(bytes: &[u8]) -> Next
    requires { 0 < length bytes.now }
    ensures { IsNext bytes.now result }
{
    match ByteClass::of(bytes[0]) {
        ByteClass::White => Next::Item(Item::White, 1),
        ByteClass::Small => variable(bytes),
        ByteClass::Capital => name(bytes),
        ByteClass::Digit => integer(bytes),
        ByteClass::Symbol => symbols(bytes),
        ByteClass::Special => special(bytes),
        ByteClass::Quote => character(bytes),
        ByteClass::DoubleQuote => string(bytes),
        ByteClass::Other => Next::Nothing,
    }
}
