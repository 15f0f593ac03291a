//! Escapes bytes for a terminal.
ghost use Rattle.std.specs.Prelude.{◌≡◌, ◌++◌, ◌<◌, IfOk, OnOk, length, slice_index, string_bytes};
ghost use Rattle.hm_messages_excerpts.specs.Escapes.{byte_text, char_text, is_hidden, piece_size, piece_text, shown, width};
ghost use Rattle.bstr.specs.Utf8.{decoded};

use bstr::decode_utf8;
use std::alloc::{AllocError, Global};
use ucd_category::{GeneralCategory, GeneralCategoryGroup};
use unicode_width::UnicodeWidthStr;

// Why: docs/DECISIONS.md, "Escapes".
/// Returns whether a character is invisible, or changes the reading order.
fn is_hidden(character: char) -> bool
    ensures { result ≡ is_hidden character }
{
    let category = GeneralCategory::for_char(character);
    GeneralCategoryGroup::Other.contains(category) || matches!(character, '\u{2028}'..='\u{2029}')
}

/// Appends a character, escaped if needed.
fn add_char(alloc: Global, text: &mut String, character: char) -> Result<(), AllocError>
    ensures { OnOk result (string_bytes text.new ≡ string_bytes text.old ++ char_text character) }
{
    if character == '\t' {
        text.push_str("    ")?;
    } else if is_hidden(character) {
        let number = u32::from(character);
        let escape = format!(in alloc; "\\u{{{number:x}}}")?;
        text.push_str(escape.as_str())?;
    } else {
        text.push(character)?;
    }
    Ok(())
}

/// Appends the escape of a byte that isn't in a character.
fn add_byte(alloc: Global, text: &mut String, byte: u8) -> Result<(), AllocError>
    ensures { OnOk result (string_bytes text.new ≡ string_bytes text.old ++ byte_text byte) }
{
    let escape = format!(in alloc; "\\x{byte:x}")?;
    text.push_str(escape.as_str())?;
    Ok(())
}

/// Appends the first piece of a text, escaped if needed, and returns its number of bytes.
fn add_piece(alloc: Global, text: &mut String, bytes: &[u8]) -> Result<usize, AllocError>
    requires { 0 < length bytes.now }
    ensures text { OnOk result (string_bytes text.new ≡ string_bytes text.old ++ piece_text (decoded bytes.now).char (slice_index bytes.now 0)) }
    ensures size { IfOk result (λ size. size ≡ piece_size (decoded bytes.now)) }
{
    let (character, size) = decode_utf8(bytes);
    match character {
        Some(character) => {
            add_char(alloc, text, character)?;
            Ok(size)
        }
        None => {
            add_byte(alloc, text, bytes[0])?;
            Ok(1)
        }
    }
}

/// Returns bytes as they are shown on a terminal. A control character, a mark of direction or another invisible character becomes its number, for
/// example `\u{1b}`. A byte that isn't in a character of UTF-8 becomes `\xe9`, for example. A tab becomes four spaces.
pub fn shown(alloc: Global, bytes: &[u8]) -> Result<String, AllocError>
    ensures { IfOk result (λ text. string_bytes text ≡ shown bytes.now) }
{
    let mut text = String::new(alloc);
    let mut start = 0usize;
    while start < bytes.len() {
        start += add_piece(alloc, &mut text, &bytes[start..])?;
    }
    Ok(text)
}

/// Returns the number of columns of a terminal that the shown bytes take (Unicode Standard Annex 11).
pub(crate) fn shown_width(alloc: Global, bytes: &[u8]) -> Result<usize, AllocError>
    ensures { IfOk result (λ columns. columns ≡ width bytes.now) }
{
    let text = shown(alloc, bytes)?;
    Ok(text.as_str().width())
}
