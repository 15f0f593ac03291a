//! Character and string literals.
ghost use Rattle.std.specs.Prelude.{◌≡◌, ◌≢◌, ◌<◌, ◌≤◌, List, [], ◌∷◌, ◌++◌, ℕ, length, take, drop, IfSome, IfNone, IsTrue, ◌↔◌, nat_le};
ghost use Rattle.std.specs.Str.Parse.{IsNumeral, digits_value};
ghost use Rattle.hm_lex.specs.declared.byte_class.ByteClass.TheVariants.{Quote, DoubleQuote};
ghost use Rattle.hm_lex.specs.Quotes.{IsPlainCharacter, IsCharacterItem, max_code};
ghost use Rattle.hm_lex.specs.Cut.{Begins};
ghost use Rattle.hm_lex.specs.Next.{IsNext, StartsWith};
ghost use Rattle.hm_lex.specs.Quoting.{IsByteRest, string_item_len, marked_len, gap_len, escape_len, numeric_len, is_simple};

use crate::byte_class::is_white;
use crate::item::Item;
use crate::next::Next;
use crate::runs::{digits_len, hexadecimal_len, octal_len, unquoted_len, white_len};
use crate::token::Kind;

const MAX_CODE: u32 = 1_114_111;

const SIMPLE_ESCAPES: &[u8] = b"abfnrtv\\\"'";

// Why: docs/DECISIONS.md, "Surrogates".
/// Returns whether the digits are the code of a character.
fn is_code(digits: &[u8], base: u32) -> bool
    requires low { 2 ≤ base }
    requires high { base ≤ 16 }
    requires numeral { IsNumeral base digits.now }
    ensures { result ≡ nat_le (digits_value base digits.now) max_code }
{
    match std::str::from_utf8(digits) {
        Ok(text) => match u32::from_str_radix(text, base) {
            Ok(code) => code <= MAX_CODE,
            Err(_) => false,
        },
        Err(_) => false,
    }
}

/// Returns the number of digits, if they are the code of a character.
#[tactic(auto, unfolding(crate::specs::Quoting::numeric_len))]
fn numeric_len(bytes: &[u8], digits: usize, base: u32) -> Option<usize>
    requires low { 2 ≤ base }
    requires high { base ≤ 16 }
    requires within { digits ≤ length bytes.now }
    requires numeral { 0 < digits → IsNumeral base (take digits bytes.now) }
    ensures value { result ≡ numeric_len base digits bytes.now }
    ensures within { IfSome result (λ len. len ≤ digits) }
{
    if digits > 0 && is_code(&bytes[..digits], base) {
        Some(digits)
    } else {
        None
    }
}

fn is_simple(byte: u8) -> bool
    ensures { result ≡ is_simple byte }
{
    SIMPLE_ESCAPES.contains(&byte)
}

/// Returns the length of an escape after its backslash.
#[tactic(auto, unfolding(crate::specs::Quoting::escape_len))]
fn escape_len(bytes: &[u8]) -> Option<usize>
    ensures value { result ≡ escape_len bytes.now }
    ensures within { IfSome result (λ len. len ≤ length bytes.now) }
{
    if bytes.is_empty() {
        return None;
    }
    let rest = &bytes[1..];
    match bytes[0] {
        byte if is_simple(byte) => Some(1),
        b'o' => Some(numeric_len(rest, octal_len(rest), 8)? + 1),
        b'x' => Some(numeric_len(rest, hexadecimal_len(rest), 16)? + 1),
        _ => numeric_len(bytes, digits_len(bytes), 10),
    }
}

/// Returns the length of a gap after its first backslash.
#[tactic(auto, unfolding(crate::specs::Quoting::gap_len))]
fn gap_len(bytes: &[u8]) -> Option<usize>
    ensures value { result ≡ gap_len bytes.now }
    ensures within { IfSome result (λ len. len ≤ length bytes.now) }
{
    let white = white_len(bytes);
    if white > 0 && white < bytes.len() && bytes[white] == b'\\' {
        Some(white + 1)
    } else {
        None
    }
}

/// Returns the length of an escape, a gap or `&` after a backslash in a string.
#[tactic(auto, unfolding(crate::specs::Quoting::marked_len))]
fn marked_len(bytes: &[u8]) -> Option<usize>
    ensures value { result ≡ marked_len bytes.now }
    ensures within { IfSome result (λ len. len ≤ length bytes.now) }
{
    if bytes.is_empty() {
        return None;
    }
    match bytes[0] {
        b'&' => Some(1),
        byte if is_white(byte) => gap_len(bytes),
        _ => escape_len(bytes),
    }
}

/// Returns the length of an item of a string, or of one byte of a character in it.
#[tactic(auto, unfolding(crate::specs::Quoting::string_item_len))]
fn string_item_len(bytes: &[u8]) -> Option<usize>
    requires { 0 < length bytes.now }
    ensures value { result ≡ string_item_len bytes.now }
    ensures within { IfSome result (λ len. len ≤ length bytes.now) }
    ensures positive { IfSome result (λ len. 0 < len) }
{
    match bytes[0] {
        b'\\' => Some(marked_len(&bytes[1..])? + 1),
        b'"' => None,
        byte if byte >= 32 => Some(1),
        _ => None,
    }
}

/// Returns the length of the rest of a string after its first quote, including the last quote.
fn string_rest_len(bytes: &[u8]) -> Option<usize>
    ensures within { IfSome result (λ len. len ≤ length bytes.now) }
    ensures found { IfSome result (λ len. IsByteRest (take len bytes.now)) }
    ensures only { IfSome result (λ len. (t : List ℕ) → IsByteRest t → Begins t bytes.now → length t ≡ len) }
    ensures none { IfNone result ((t : List ℕ) → IsByteRest t → Begins t bytes.now → ⊥) }
{
    let mut at = 0;
    while at < bytes.len() {
        if bytes[at] == b'"' {
            return Some(at + 1);
        }
        match string_item_len(&bytes[at..]) {
            Some(len) => at += len,
            None => return None,
        }
    }
    None
}

/// Returns the string at the front.
pub(crate) fn string(bytes: &[u8]) -> Next
    requires { StartsWith DoubleQuote bytes.now }
    ensures { IsNext bytes.now result }
{
    match string_rest_len(&bytes[1..]) {
        Some(len) => match std::str::from_utf8(&bytes[..len + 1]) {
            Ok(_) => Next::Item(Item::Lexeme(Kind::Str), len + 1),
            Err(_) => Next::Nothing,
        },
        None => Next::Nothing,
    }
}

/// Returns whether the character needs no escape between single quotes.
fn is_plain(c: char) -> bool
    ensures { IsTrue result ↔ (32 ≤ c) × (c ≢ 39) × (c ≢ 92) }
{
    c >= ' ' && c != '\'' && c != '\\'
}

/// Returns whether the bytes are one character that needs no escape between single quotes.
fn is_plain_character(bytes: &[u8]) -> bool
    ensures { IsTrue result ↔ IsPlainCharacter 39 bytes.now }
{
    match std::str::from_utf8(bytes) {
        Ok(text) => match text.parse::<char>() {
            Ok(c) => is_plain(c),
            Err(_) => false,
        },
        Err(_) => false,
    }
}

/// Returns the length of the item between single quotes, if the last quote follows it.
fn character_item_len(bytes: &[u8]) -> Option<usize>
    ensures within { IfSome result (λ len. len ≤ length bytes.now) }
    ensures found { IfSome result (λ len. Begins (39 ∷ []) (drop len bytes.now) → IsCharacterItem 39 (take len bytes.now) (39 ∷ [])) }
    ensures only { IfSome result (λ len. (t : List ℕ) → IsCharacterItem 39 t (39 ∷ []) → Begins (t ++ 39 ∷ []) bytes.now → length t ≡ len) }
    ensures none { IfNone result ((t : List ℕ) → IsCharacterItem 39 t (39 ∷ []) → Begins (t ++ 39 ∷ []) bytes.now → ⊥) }
{
    if bytes.is_empty() {
        return None;
    }
    if bytes[0] == b'\\' {
        return Some(escape_len(&bytes[1..])? + 1);
    }
    let len = unquoted_len(bytes);
    if is_plain_character(&bytes[..len]) {
        Some(len)
    } else {
        None
    }
}

/// Returns the character at the front.
pub(crate) fn character(bytes: &[u8]) -> Next
    requires { StartsWith Quote bytes.now }
    ensures { IsNext bytes.now result }
{
    let Some(len) = character_item_len(&bytes[1..]) else {
        return Next::Nothing;
    };
    if len + 1 < bytes.len() && bytes[len + 1] == b'\'' {
        Next::Item(Item::Lexeme(Kind::Character), len + 2)
    } else {
        Next::Nothing
    }
}
