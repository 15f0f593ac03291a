//! Lexemes of the Report that this language lacks, at the front of some bytes.
ghost use Rattle.std.specs.Prelude.{◌≡◌, ◌<◌, ◌≤◌, IfSome, drop, false, length, slice_index, take, true};
ghost use Rattle.std.specs.List.{prefix_len};
ghost use Rattle.hm_lex.specs.Bytes.{is_digit, is_name_byte, is_symbol};
ghost use Rattle.hm_lex.specs.Runs.{FirstFails};
ghost use Rattle.hm_lex.specs.Symbols.{IsDashes, is_dash};
ghost use Rattle.hm_messages_lexemes.specs.Lexemes.{IsBackquoted, IsForeignLexeme, IsFractionBefore, IsOperatorBefore, is_dotted};

/// Returns whether operators can have this byte in them (Report, section 2.2).
#[tactic(auto, unfolding(hm_lex::specs::Bytes::class_of))]
fn is_symbol(byte: u8) -> bool
    ensures { result ≡ is_symbol byte }
{
    matches!(
        byte,
        b'!' | b'#'..=b'&'
            | b'*'
            | b'+'
            | b'-'..=b'/'
            | b':'
            | b'<'..=b'@'
            | b'\\'
            | b'^'
            | b'|'
            | b'~'
    )
}

/// Returns whether this byte may follow in a name: a letter, a digit, `_` or `'`.
#[tactic(auto, unfolding(hm_lex::specs::Bytes::class_of))]
fn is_name_byte(byte: u8) -> bool
    ensures { result ≡ is_name_byte byte }
{
    matches!(byte, b'a'..=b'z' | b'A'..=b'Z' | b'0'..=b'9' | b'_' | b'\'')
}

/// Returns whether a byte is a digit.
#[tactic(auto, unfolding(hm_lex::specs::Bytes::class_of))]
fn is_digit(byte: u8) -> bool
    ensures { result ≡ is_digit byte }
{
    byte.is_ascii_digit()
}

/// Returns whether a byte may follow in a name, perhaps a qualified one.
fn is_dotted(byte: u8) -> bool
    ensures { result ≡ is_dotted byte }
{
    is_name_byte(byte) || byte == b'.'
}

/// Returns how many symbols are at the front.
fn symbols_len(bytes: &[u8]) -> usize
    ensures run { result ≡ prefix_len is_symbol bytes.now }
    ensures within { result ≤ length bytes.now }
{
    bytes.iter().take_while(|byte| is_symbol(**byte)).count()
}

/// Returns how many dashes are at the front.
fn dashes_len(bytes: &[u8]) -> usize
    ensures run { result ≡ prefix_len is_dash bytes.now }
{
    bytes.iter().take_while(|byte| **byte == b'-').count()
}

/// Returns how many digits are at the front.
fn digits_len(bytes: &[u8]) -> usize
    ensures run { result ≡ prefix_len is_digit bytes.now }
    ensures within { result ≤ length bytes.now }
{
    bytes.iter().take_while(|byte| is_digit(**byte)).count()
}

/// Returns how many bytes of names and dots are at the front.
fn dotted_len(bytes: &[u8]) -> usize
    ensures run { result ≡ prefix_len is_dotted bytes.now }
    ensures within { result ≤ length bytes.now }
{
    bytes.iter().take_while(|byte| is_dotted(**byte)).count()
}

/// Returns whether the first bytes may be two or more dashes.
fn may_be_dashes(bytes: &[u8], len: usize) -> bool
    requires { len ≤ length bytes.now }
    ensures { result ≡ false → ¬ IsDashes (take len bytes.now) }
{
    if len < 2 {
        return false;
    }
    if dashes_len(bytes) < len {
        return false;
    }
    true
}

/// Returns the length of the operator at the front, if there is one.
fn operator_len(bytes: &[u8]) -> Option<usize>
    ensures { IfSome result (λ len. (len ≤ length bytes.now) × IsOperatorBefore (take len bytes.now) (drop len bytes.now)) }
{
    let len = symbols_len(bytes);
    if len == 0 {
        return None;
    }
    if may_be_dashes(bytes, len) {
        return None;
    }
    Some(len)
}

/// Returns whether the first byte, if there is one, may follow in a name.
fn goes_on(bytes: &[u8]) -> bool
    ensures { result ≡ false → FirstFails is_name_byte bytes.now }
{
    if bytes.is_empty() {
        return false;
    }
    is_name_byte(bytes[0])
}

/// Returns whether there is this byte at a place.
fn is_at(bytes: &[u8], place: usize, byte: u8) -> bool
    ensures { result ≡ true → (place < length bytes.now) × (slice_index bytes.now place ≡ byte) }
{
    if place >= bytes.len() {
        return false;
    }
    bytes[place] == byte
}

/// Returns the length of the name between backquotes at the front, if there is one.
fn backquoted_len(bytes: &[u8]) -> Option<usize>
    ensures { IfSome result (λ len. (len ≤ length bytes.now) × IsBackquoted (take len bytes.now)) }
{
    if !is_at(bytes, 0, b'`') {
        return None;
    }
    let len = dotted_len(&bytes[1..]);
    if len == 0 {
        return None;
    }
    if !is_at(bytes, len + 1, b'`') {
        return None;
    }
    Some(len + 2)
}

/// Returns the length of the number with a fraction at the front, if there is one.
fn fraction_len(bytes: &[u8]) -> Option<usize>
    ensures { IfSome result (λ len. (len ≤ length bytes.now) × IsFractionBefore (take len bytes.now) (drop len bytes.now)) }
{
    let whole = digits_len(bytes);
    if whole == 0 {
        return None;
    }
    if !is_at(bytes, whole, b'.') {
        return None;
    }
    let part = digits_len(&bytes[whole + 1..]);
    if part == 0 {
        return None;
    }
    let len = whole + 1 + part;
    if goes_on(&bytes[len..]) {
        return None;
    }
    Some(len)
}

/// Returns the length of the operator, the name between backquotes or the number with a fraction at the front, if there is one.
pub(crate) fn foreign_len(bytes: &[u8]) -> Option<usize>
    ensures { IfSome result (λ len. (len ≤ length bytes.now) × IsForeignLexeme (take len bytes.now) (drop len bytes.now)) }
{
    match operator_len(bytes) {
        Some(len) => return Some(len),
        None => {}
    }
    match backquoted_len(bytes) {
        Some(len) => return Some(len),
        None => {}
    }
    fraction_len(bytes)
}
