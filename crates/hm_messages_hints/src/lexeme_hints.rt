//! The hint at a text with which no lexeme begins.
ghost use Rattle.std.specs.Prelude.{◌≡◌, ◌<◌, ◌≤◌, ℕ, List, true, ◌∷◌, length, slice_index, take_while};
ghost use Rattle.std.specs.List.{prefix_len};
ghost use Rattle.hm_lex.specs.Bytes.{is_symbol};
ghost use Rattle.hm_lex.specs.Symbols.{is_dash};
ghost use Rattle.hm_lex.specs.Bytes.{is_white};
ghost use Rattle.hm_messages_hints.specs.LexemeHints.{IsLexemeHint, is_end, is_left_open, is_text, next_in, operator_in};
ghost use Rattle.hm_messages_hints.specs.declared.lexeme_hints.LexemeHint.TheVariants.{ByteOrderMark};

/// What is at a place where no lexeme can be completed.
#[derive(Clone, Copy, Debug, PartialEq, Eq)]
pub enum LexemeHint {
    /// A byte order mark.
    ByteOrderMark,
    Backquote,
    /// A string without a quote that ends it on its line.
    OpenString,
    /// A string with an escape or a byte that isn't read.
    StringItem,
    /// A character without an end, or with an item that isn't read.
    Character,
    /// A number with a fraction or an exponent.
    Fraction,
    /// A qualified name that ends in a reserved word.
    ReservedName,
    /// A comment that isn't UTF-8.
    Comment,
    /// An operator that begins with two dashes.
    Dashes,
    /// Any other operator.
    Operator,
    /// A character that isn't ASCII.
    NotAscii,
    /// A byte that is in no lexeme.
    NoText,
    /// A quotation mark from U+2018 to U+201D.
    CurlyQuote,
}

/// Returns whether operators can have this byte in them (Report, section 2.2).
#[tactic(auto, unfolding(hm_lex::specs::Bytes::class_of))]
fn is_symbol(byte: u8) -> bool
    ensures symbol { result ≡ is_symbol byte }
    ensures ascii { result ≡ true → byte < 128 }
{
    matches!(
        byte,
        b'!' | b'#'..=b'&'
            | b'*'
            | b'+'
            | b'-'..=b'/'
            | b':'
            | b'<'..=b'@'
            | b'\\'
            | b'^'
            | b'|'
            | b'~'
    )
}

/// What a byte within a string belongs to.
#[derive(Clone, Copy)]
enum StringPart {
    Text,
    /// An escape, right after its backslash.
    Escape,
    /// A gap: white space between backslashes.
    Gap,
}

/// Returns whether a byte is white space in a source.
#[tactic(auto, unfolding(hm_lex::specs::Bytes::class_of))]
fn is_white(byte: u8) -> bool
    ensures { result ≡ is_white byte }
{
    matches!(byte, b'\t'..=b'\r' | b' ')
}

/// Returns what follows a byte of a string that isn't the quote at its end.
fn next_in(part: StringPart, byte: u8) -> StringPart
    ensures { result ≡ next_in part byte }
{
    match part {
        StringPart::Text => {
            if byte == b'\\' {
                StringPart::Escape
            } else {
                StringPart::Text
            }
        }
        StringPart::Escape => {
            if is_white(byte) {
                StringPart::Gap
            } else {
                StringPart::Text
            }
        }
        StringPart::Gap => {
            if byte == b'\\' {
                StringPart::Text
            } else {
                StringPart::Gap
            }
        }
    }
}

/// Returns whether a byte of a string is the quote at its end.
fn is_end(part: StringPart, byte: u8) -> bool
    ensures { result ≡ is_end part byte }
{
    match part {
        StringPart::Text => byte == b'"',
        _ => false,
    }
}

/// Returns whether a part of a string ends with its text, so that no gap goes on in the next line.
fn is_text(part: StringPart) -> bool
    ensures { result ≡ is_text part }
{
    matches!(part, StringPart::Text)
}

/// Returns whether a string isn't closed in the rest of its line.
#[tactic(auto, using(crate::proofs::Strings::goes_end, crate::proofs::Strings::goes_step))]
fn is_left_open(line: &[u8]) -> bool
    ensures { result ≡ is_left_open line.now }
{
    let mut part = StringPart::Text;
    'bytes: for at in 0..line.len() {
        let byte = line[at];
        if is_end(part, byte) {
            return false;
        }
        part = next_in(part, byte);
    }
    is_text(part)
}

/// Returns the hint at a string. `inner` is the text after its first quote.
fn string_hint(rest: &[u8], inner: &[u8]) -> LexemeHint
    requires { rest.now ≡ 34 ∷ inner.now }
    ensures { IsLexemeHint rest.now result }
{
    if is_left_open(inner) {
        LexemeHint::OpenString
    } else {
        LexemeHint::StringItem
    }
}

/// Returns whether a quotation mark from U+2018 to U+201D begins a text.
fn is_curly_quote(rest: &[u8]) -> bool
    ensures { result ≡ true → (b : ℕ) × (bs : List ℕ) × (rest.now ≡ 226 ∷ 128 ∷ b ∷ bs) × (152 ≤ b) × (b ≤ 157) }
{
    if rest.len() < 3 {
        return false;
    }
    if rest[0] != 0xE2 || rest[1] != 0x80 {
        return false;
    }
    rest[2] >= 0x98 && rest[2] <= 0x9D
}

/// Returns whether a byte order mark begins a text.
fn is_byte_order_mark(rest: &[u8]) -> bool
    ensures { result ≡ true → (bs : List ℕ) × (rest.now ≡ 239 ∷ 187 ∷ 191 ∷ bs) }
{
    if rest.len() < 3 {
        return false;
    }
    if rest[0] != 0xEF || rest[1] != 0xBB {
        return false;
    }
    rest[2] == 0xBF
}

/// Returns the hint at a text up to the end of its line. No lexeme can be completed that begins there. `is_first` is whether the text is at
/// the front of the source.
pub fn lexeme_hint(rest: &[u8], is_first: bool) -> LexemeHint
    ensures holds { IsLexemeHint rest.now result }
    ensures first { result ≡ ByteOrderMark → is_first ≡ true }
{
    if rest.is_empty() {
        return LexemeHint::NoText;
    }
    if is_first && is_byte_order_mark(rest) {
        return LexemeHint::ByteOrderMark;
    }
    later_hint(rest)
}

/// Returns the hint at a text that isn't empty, and begins with no byte order mark that is the source's.
fn later_hint(rest: &[u8]) -> LexemeHint
    requires { 0 < length rest.now }
    ensures holds { IsLexemeHint rest.now result }
    ensures other { result ≡ ByteOrderMark → ⊥ }
{
    match rest[0] {
        0xE2 if is_curly_quote(rest) => LexemeHint::CurlyQuote,
        b'`' => LexemeHint::Backquote,
        b'"' => string_hint(rest, &rest[1..]),
        b'\'' => LexemeHint::Character,
        b'0'..=b'9' => LexemeHint::Fraction,
        b'A'..=b'Z' => LexemeHint::ReservedName,
        b'{' => brace_hint(rest, &rest[1..]),
        b'-' if rest.len() >= 2 && rest[1] == b'-' => dashes_hint(rest, &rest[2..]),
        0x80..=0xFF => LexemeHint::NotAscii,
        byte => {
            if is_symbol(byte) {
                LexemeHint::Operator
            } else {
                LexemeHint::NoText
            }
        }
    }
}

/// Returns the number of dashes at the front.
fn dashes_len(text: &[u8]) -> usize
    ensures run { result ≡ prefix_len is_dash text.now }
{
    let mut len = 0;
    while len < text.len() && text[len] == b'-' {
        len += 1;
    }
    len
}

/// Returns the hint at a brace. `inner` is the text after it.
fn brace_hint(_rest: &[u8], _inner: &[u8]) -> LexemeHint
    requires { _rest.now ≡ 123 ∷ _inner.now }
    ensures { IsLexemeHint _rest.now result }
{
    LexemeHint::Comment
}

/// Returns the hint at two dashes. `inner` is the text after them.
fn dashes_hint(rest: &[u8], inner: &[u8]) -> LexemeHint
    requires { rest.now ≡ 45 ∷ 45 ∷ inner.now }
    ensures { IsLexemeHint rest.now result }
{
    if dashes_len(rest) < symbols_len(rest) {
        LexemeHint::Dashes
    } else {
        LexemeHint::Comment
    }
}

/// Returns the number of symbols at the front.
fn symbols_len(text: &[u8]) -> usize
    ensures run { result ≡ prefix_len is_symbol text.now }
    ensures within { result ≤ length text.now }
    ensures ascii { (k : ℕ) → k < result → slice_index text.now k < 128 }
{
    let mut len = 0;
    while len < text.len() && is_symbol(text[len]) {
        len += 1;
    }
    len
}

/// Returns the symbols at the front.
fn symbols_in(text: &[u8]) -> &str
    ensures { result.now ≡ take_while is_symbol text.entry.now }
{
    match std::str::from_utf8(&text[..symbols_len(text)]) {
        Ok(symbols) => symbols,
        Err(_) => unreachable!(),
    }
}

/// Returns the operator at the front of a text if the hint there is about one, and no text otherwise.
pub fn operator_in(rest: &[u8], hint: LexemeHint) -> &str
    ensures { result.now ≡ operator_in rest.entry.now hint }
{
    match hint {
        LexemeHint::Operator | LexemeHint::Dashes => symbols_in(rest),
        _ => "",
    }
}
