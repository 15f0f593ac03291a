//! The text that is marked at a place.
ghost use Rattle.std.specs.Prelude.{◌≡◌, ◌≤◌, length};
ghost use Rattle.std.specs.List.{prefix_len};
ghost use Rattle.hm_lex.specs.Bytes.{class_of, is_name_byte, is_symbol};
ghost use Rattle.hm_messages_excerpts.specs.Marks.{is_of_word, marked};

use bstr::decode_utf8;

/// Returns whether a byte may be in a name: a letter, a digit, `_` or `'`.
#[tactic(auto, unfolding(hm_lex::specs::Bytes::class_of))]
fn is_name_byte(byte: u8) -> bool
    ensures { result ≡ is_name_byte byte }
{
    matches!(byte, b'a'..=b'z' | b'A'..=b'Z' | b'0'..=b'9' | b'_' | b'\'')
}

/// Returns whether a byte is a symbol.
#[tactic(auto, unfolding(hm_lex::specs::Bytes::class_of))]
fn is_symbol(byte: u8) -> bool
    ensures { result ≡ is_symbol byte }
{
    matches!(
        byte,
        b'!' | b'#'..=b'&' | b'*'..=b'/' | b':' | b'<'..=b'@' | b'\\' | b'^' | b'|' | b'~'
    ) && byte != b','
}

/// Returns the length of the name or the number at the front.
fn word_len(bytes: &[u8]) -> usize
    ensures run { result ≡ prefix_len is_of_word bytes.now }
    ensures within { result ≤ length bytes.now }
{
    let mut len = 0;
    while len < bytes.len() && (is_name_byte(bytes[len]) || bytes[len] == b'.') {
        len += 1;
    }
    len
}

/// Returns the length of the run of symbols at the front.
fn symbols_len(bytes: &[u8]) -> usize
    ensures run { result ≡ prefix_len is_symbol bytes.now }
    ensures within { result ≤ length bytes.now }
{
    let mut len = 0;
    while len < bytes.len() && is_symbol(bytes[len]) {
        len += 1;
    }
    len
}

// Why: docs/DECISIONS.md, "What is marked".
/// Returns the number of bytes that are marked at the front of a text.
#[tactic(auto, using(crate::proofs::Escaping::size_fits))]
pub(crate) fn marked(bytes: &[u8]) -> usize
    ensures marked { result ≡ marked bytes.now }
    ensures within { result ≤ length bytes.now }
{
    let Some(first) = bytes.first() else {
        return 0;
    };
    if is_name_byte(*first) {
        return word_len(bytes);
    }
    if is_symbol(*first) {
        return symbols_len(bytes);
    }
    let (_, size) = decode_utf8(bytes);
    size
}
