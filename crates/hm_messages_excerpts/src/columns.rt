//! Columns in a line: in bytes, in characters and in units of UTF-16.
ghost use Rattle.std.specs.Prelude.{◌≡◌, ◌+◌, ◌≤◌, ◌^◌, ◌<◌, IfOk, count_by, drop, length, nat_le, take};
ghost use Rattle.std.specs.Fmt.{is_char_start};
ghost use Rattle.hm_messages_excerpts.specs.Columns.{AreUnitsOf, characters, units_of, utf16_units};

use bstr::ByteSlice;
use std::alloc::{AllocError, Global};

// Why: docs/DECISIONS.md, "Columns in characters".
/// The column of a place, counted from 1 in three units.
#[derive(Clone, Copy, Debug, PartialEq, Eq)]
pub struct Columns {
    /// In bytes, as in the report.
    pub bytes: usize,
    /// In characters, as people count.
    pub characters: usize,
    /// In units of UTF-16, as in the protocol of language servers.
    pub utf16: usize,
}

/// The number of characters in a text, and the number of those with four bytes, which have two units of UTF-16.
#[derive(Clone, Copy)]
pub(crate) struct Units {
    pub characters: usize,
    pub wide: usize,
}

/// The number of bytes between two rows of a table of units.
const STRIDE: usize = 1024;

/// Returns whether a byte is the first of a character.
fn is_char_start(byte: u8) -> bool
    ensures { result ≡ is_char_start byte }
{
    byte < 0x80 || byte >= 0xC0
}

/// Returns the number of characters in a text.
fn characters(text: &[u8]) -> usize
    ensures count { result ≡ characters text.now }
    ensures few { result ≤ length text.now }
{
    let mut count = 0;
    for byte in text {
        if is_char_start(*byte) {
            count += 1;
        }
    }
    count
}

/// Returns the number of characters with four bytes.
fn wide_characters(text: &[u8]) -> usize
    ensures count { result ≡ count_by (nat_le 0xF0) text.now }
    ensures few { result ≤ length text.now }
{
    let mut count = 0;
    for byte in text {
        if *byte >= 0xF0 {
            count += 1;
        }
    }
    count
}

/// Returns the units of a text.
fn units_in(text: &[u8]) -> Units
    ensures units { result ≡ units_of text.now }
    ensures characters { result.characters ≤ length text.now }
    ensures wide { result.wide ≤ length text.now }
{
    if text.is_ascii() {
        return Units {
            characters: text.len(),
            wide: 0,
        };
    }
    Units {
        characters: characters(text),
        wide: wide_characters(text),
    }
}

impl Units {
    /// Returns the units of two texts together.
    fn plus(self, more: Units) -> Units
        requires characters { self.characters + more.characters < 2 ^ 64 }
        requires wide { self.wide + more.wide < 2 ^ 64 }
        ensures characters { result.characters ≡ self.characters + more.characters }
        ensures wide { result.wide ≡ self.wide + more.wide }
    {
        Units {
            characters: self.characters + more.characters,
            wide: self.wide + more.wide,
        }
    }
}

/// Returns the units of the source up to each stride. With it, counting the units of any part reads at most two strides.
pub(crate) fn units_table(alloc: Global, source: &[u8]) -> Result<Vec<Units>, AllocError>
    ensures { IfOk result (λ table. AreUnitsOf source.now table.items) }
{
    let mut table = Vec::new(alloc);
    let mut sum = Units {
        characters: 0,
        wide: 0,
    };
    for row in 0..source.len() / STRIDE + 1 {
        table.push(sum)?;
        let rest = &source[row * STRIDE..];
        sum = sum.plus(units_in(&rest[..STRIDE.min(rest.len())]));
    }
    Ok(table)
}

/// Returns the units of the source up to a byte.
fn units_before(source: &[u8], table: &[Units], end: usize) -> Units
    requires table { AreUnitsOf source.now table.now }
    requires within { end ≤ length source.now }
    ensures { result ≡ units_of (take end source.now) }
{
    let row = end / STRIDE;
    table[row].plus(units_in(&source[row * STRIDE..end]))
}

/// Returns the columns of the place at this offset from the start of a line.
pub(crate) fn columns_at(source: &[u8], table: &[Units], start: usize, offset: usize) -> Columns
    requires table { AreUnitsOf source.now table.now }
    requires within { start + offset ≤ length source.now }
    ensures bytes { result.bytes ≡ offset + 1 }
    ensures characters { result.characters ≡ characters (take offset (drop start source.now)) + 1 }
    ensures utf16 { result.utf16 ≡ utf16_units (take offset (drop start source.now)) + 1 }
{
    let before = units_before(source, table, start);
    let here = units_before(source, table, start + offset);
    let characters = here.characters - before.characters;
    let wide = here.wide - before.wide;
    Columns {
        bytes: offset + 1,
        characters: characters + 1,
        utf16: characters + wide + 1,
    }
}
