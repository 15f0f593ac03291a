//! Cuts a source into pieces, for a bound on its nesting.
//!
//! In a source without a lexical fault each piece begins and ends where an item of `hm_lex` does. A source with a fault is refused before it
//! is parsed, so its pieces don't matter.
ghost use Rattle.std.specs.Prelude.{◌+◌, ◌<◌, ◌≤◌, length};

/// The kind of a piece, as nesting depends on it.
#[derive(Clone, Copy, Debug, PartialEq, Eq)]
pub(crate) enum Piece {
    /// White space or a comment.
    Gap,
    /// A name, a reserved word, an operator or a literal.
    Lexeme,
    /// `(`, `[` or `{`.
    Opening,
    /// `)`, `]` or `}`.
    Closing,
    /// `,` or `;`.
    Separator,
    /// `|`, with which the next constructor or guard begins.
    Bar,
}

/// A class of bytes that form runs.
#[derive(Clone, Copy)]
enum Class {
    White,
    /// Bytes that may follow in a name.
    Name,
    Symbol,
    Digit,
    Octal,
    Hexadecimal,
    /// All bytes except the end of a line.
    Line,
    /// All bytes except a single quote.
    Unquoted,
}

impl Class {
    #[inline(always)]
    fn has(self, byte: u8) -> bool {
        match self {
            Class::White => matches!(byte, b'\t'..=b'\r' | b' '),
            Class::Name => is_name_byte(byte),
            Class::Symbol => is_symbol(byte),
            Class::Digit => byte.is_ascii_digit(),
            Class::Octal => matches!(byte, b'0'..=b'7'),
            Class::Hexadecimal => byte.is_ascii_hexdigit(),
            Class::Line => byte != b'\n',
            Class::Unquoted => byte != b'\'',
        }
    }
}

/// Returns whether a byte may follow in a name: a letter, a digit, `_` or `'`.
#[inline(always)]
fn is_name_byte(byte: u8) -> bool {
    if byte.is_ascii_lowercase() {
        return true;
    }
    matches!(byte, b'A'..=b'Z' | b'0'..=b'9' | b'_' | b'\'')
}

/// Returns whether a byte may be in an operator (Report, section 2.2).
#[inline(always)]
fn is_symbol(byte: u8) -> bool {
    matches!(
        byte,
        b'!' | b'#'..=b'&' | b'*'..=b'+' | b'-'..=b'/' | b':' | b'<'..=b'@' | b'\\' | b'^' | b'|' | b'~'
    )
}

/// Returns the length of the run of this class at the front.
#[inline(always)]
fn run_len(bytes: &[u8], class: Class) -> usize
    ensures within { result ≤ length bytes.now }
{
    let mut len = 0;
    while len < bytes.len() && class.has(bytes[len]) {
        len += 1;
    }
    len
}

/// Returns the number of digits after `0x` or `0o`.
fn marked_digits(bytes: &[u8]) -> usize
    ensures within { 0 < result → result + 2 ≤ length bytes.now }
{
    if bytes.len() < 2 || bytes[0] != b'0' {
        return 0;
    }
    match bytes[1] {
        b'x' | b'X' => run_len(&bytes[2..], Class::Hexadecimal),
        b'o' | b'O' => run_len(&bytes[2..], Class::Octal),
        _ => 0,
    }
}

/// Returns the length of the integer at the front.
fn integer_len(bytes: &[u8]) -> usize
    ensures within { result ≤ length bytes.now }
{
    let marked = marked_digits(bytes);
    if marked > 0 {
        marked + 2
    } else {
        run_len(bytes, Class::Digit)
    }
}

/// Returns the length of the character at the front, including quotes.
fn character_len(bytes: &[u8]) -> usize
    ensures within { result ≤ length bytes.now }
{
    // The byte after a backslash may itself be a quote.
    let start = if bytes.len() > 2 && bytes[1] == b'\\' {
        3
    } else {
        1
    };
    if start >= bytes.len() {
        return bytes.len();
    }
    let end = start + run_len(&bytes[start..], Class::Unquoted);
    (end + 1).min(bytes.len())
}

/// Returns the length at the front of the rest of a string: of a gap with its backslashes, or of a backslash and the next byte.
fn marked_len(bytes: &[u8]) -> usize
    requires { 0 < length bytes.now }
    ensures within { result ≤ length bytes.now }
    ensures some { 0 < result }
{
    let end = 1 + run_len(&bytes[1..], Class::White);
    (end + 1).min(bytes.len())
}

/// Returns the length of the string at the front, including quotes.
fn string_len(bytes: &[u8]) -> usize
    requires { 0 < length bytes.now }
    ensures within { result ≤ length bytes.now }
{
    let mut end = 1;
    while end < bytes.len() && bytes[end] != b'"' {
        if bytes[end] == b'\\' {
            end += marked_len(&bytes[end..]);
        } else {
            end += 1;
        }
    }
    (end + 1).min(bytes.len())
}

/// Returns the length of the nested comment at the front.
fn comment_len(bytes: &[u8]) -> usize
    requires { 2 ≤ length bytes.now }
    ensures within { result ≤ length bytes.now }
{
    let mut depth: usize = 1;
    let mut end = 2;
    while end + 1 < bytes.len() && depth > 0 {
        match (bytes[end], bytes[end + 1]) {
            (b'{', b'-') => {
                depth = depth.saturating_add(1);
                end += 2;
            }
            (b'-', b'}') => {
                depth -= 1;
                end += 2;
            }
            _ => end += 1,
        }
    }
    if depth > 0 { bytes.len() } else { end }
}

/// Returns the operator, the `|` or the line comment at the front.
fn symbols(bytes: &[u8]) -> (Piece, usize)
    requires { 0 < length bytes.now }
    ensures within { result.1 ≤ length bytes.now }
{
    if bytes.len() >= 2 && bytes[0] == b'-' && bytes[1] == b'-' {
        return (Piece::Gap, run_len(bytes, Class::Line));
    }
    let len = run_len(bytes, Class::Symbol);
    if len == 1 && bytes[0] == b'|' {
        return (Piece::Bar, len);
    }
    (Piece::Lexeme, len)
}

/// Returns the bracket or the nested comment at the front.
fn brace(bytes: &[u8]) -> (Piece, usize)
    requires { 0 < length bytes.now }
    ensures within { result.1 ≤ length bytes.now }
{
    if bytes.len() >= 2 && bytes[1] == b'-' {
        (Piece::Gap, comment_len(bytes))
    } else {
        (Piece::Opening, 1)
    }
}

/// Returns the piece at the front, with its length. White space is returned byte by byte.
#[inline(always)]
pub(crate) fn first_piece(bytes: &[u8]) -> (Piece, usize)
    requires { 0 < length bytes.now }
    ensures within { result.1 ≤ length bytes.now }
{
    let byte = bytes[0];
    // Tested first, because most bytes are in names and white space.
    if byte.is_ascii_lowercase() {
        return (Piece::Lexeme, run_len(bytes, Class::Name));
    }
    match byte {
        b'\t'..=b'\r' | b' ' => (Piece::Gap, 1),
        b'A'..=b'Z' | b'_' => (Piece::Lexeme, run_len(bytes, Class::Name)),
        b'(' | b'[' => (Piece::Opening, 1),
        b'{' => brace(bytes),
        b')' | b']' | b'}' => (Piece::Closing, 1),
        b',' | b';' => (Piece::Separator, 1),
        b'0'..=b'9' => (Piece::Lexeme, integer_len(bytes)),
        b'\'' => (Piece::Lexeme, character_len(bytes)),
        b'"' => (Piece::Lexeme, string_len(bytes)),
        byte if is_symbol(byte) => symbols(bytes),
        _ => (Piece::Lexeme, 1),
    }
}
