//! The place of a character in a line.
ghost use Rattle.std.specs.Prelude.{◌≡◌, ◌≤◌, length};
ghost use Rattle.std.specs.Fmt.{is_char_start};
ghost use Rattle.hm_build_places.specs.Answers.{IsByteOf};

/// Returns whether a byte is the first of a character.
fn is_char_start(byte: u8) -> bool
    ensures { result ≡ is_char_start byte }
{
    byte < 0x80 || byte >= 0xC0
}

/// Returns the number of bytes before the character that has so many characters before it, or of all bytes if there are no more characters.
pub(crate) fn bytes_before(text: &[u8], count: usize) -> usize
    ensures byte { IsByteOf text.now count result }
    ensures within { result ≤ length text.now }
{
    let mut seen = 0;
    'bytes: for at in 0..text.len() {
        if is_char_start(text[at]) {
            if seen == count {
                return at;
            }
            seen += 1;
        }
    }
    text.len()
}
