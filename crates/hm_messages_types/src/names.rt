//! Names in the texts of types.
ghost use Rattle.std.specs.Prelude.{◌≡◌, ◌≤◌, length};
ghost use Rattle.std.specs.List.{prefix_len};
ghost use Rattle.hm_lex.specs.Bytes.{is_name_byte};
ghost use Rattle.hm_messages_types.specs.Shown.{starts_name};

/// Returns whether a byte may follow in a name: a letter, a digit, `_` or `'`.
#[tactic(auto, unfolding(hm_lex::specs::Bytes::class_of))]
fn is_name_byte(byte: u8) -> bool
    ensures { result ≡ is_name_byte byte }
{
    matches!(byte, b'a'..=b'z' | b'A'..=b'Z' | b'0'..=b'9' | b'_' | b'\'')
}

/// Returns how many bytes of names a text begins with.
pub(crate) fn name_len(text: &[u8]) -> usize
    ensures run { result ≡ prefix_len is_name_byte text.now }
    ensures within { result ≤ length text.now }
{
    let mut len = 0;
    while len < text.len() && is_name_byte(text[len]) {
        len += 1;
    }
    len
}

/// Returns whether a text begins with a byte of a name.
pub(crate) fn starts_name(text: &[u8]) -> bool
    ensures { result ≡ starts_name text.now }
{
    match text.first() {
        Some(first) => is_name_byte(*first),
        None => false,
    }
}
