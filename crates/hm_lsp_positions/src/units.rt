//! Units of a text.
ghost use Rattle.std.specs.Prelude.{◌≡◌, ◌≤◌, ◌*◌, length};
ghost use Rattle.hm_lsp_positions.specs.Units.{continues, unit_of, units};

/// What the columns of positions count.
#[derive(Clone, Copy, Debug, PartialEq, Eq)]
pub enum Encoding {
    /// Bytes of UTF-8.
    Utf8,
    /// Units of UTF-16, of which some characters have two. Each client has it.
    Utf16,
    /// Characters.
    Utf32,
}

/// Returns whether a byte is inside a character, after its first byte.
pub(crate) fn continues(byte: u8) -> bool
    ensures { result ≡ continues byte }
{
    byte >= 0x80 && byte <= 0xBF
}

/// Returns the number of units that a byte adds.
pub(crate) fn unit_of(encoding: Encoding, byte: u8) -> usize
    ensures units { result ≡ unit_of encoding byte }
    ensures few { result ≤ 2 }
{
    match encoding {
        Encoding::Utf8 => 1,
        Encoding::Utf16 => {
            if continues(byte) {
                return 0;
            }
            if byte >= 0xF0 { 2 } else { 1 }
        }
        Encoding::Utf32 => { if continues(byte) { 0 } else { 1 } }
    }
}

/// Returns the number of units of a text.
pub(crate) fn units(encoding: Encoding, text: &[u8]) -> usize
    ensures units { result ≡ units encoding text.now }
    ensures few { result ≤ 2 * length text.now }
{
    let mut sum = 0;
    for byte in text {
        sum += unit_of(encoding, *byte);
    }
    sum
}
