//! The texts of the hint at a lexical fault.
ghost use Rattle.std.specs.Prelude.{◌≡◌, IfOk, string_bytes};
ghost use Rattle.hm_messages_hints.specs.LexemeTexts.{begins_comment, is_arithmetic, is_monadic, is_order, lexeme_help, lexeme_text, operator_help};

use crate::lexeme_hints::LexemeHint;
use std::alloc::{AllocError, Global};

/// Returns the first line of the text of a hint, without a line's end. `name` is the operator that the hint is about.
pub fn lexeme_text(alloc: Global, hint: LexemeHint, name: &str) -> Result<String, AllocError>
    ensures { IfOk result (λ line. string_bytes line ≡ lexeme_text hint name.now) }
{
    match hint {
        LexemeHint::ByteOrderMark => String::from_str(
            alloc,
            "the file begins with a byte order mark",
        ),
        LexemeHint::Backquote => String::from_str(
            alloc,
            "a function between backquotes isn't supported",
        ),
        LexemeHint::OpenString => String::from_str(alloc, "this string isn't closed on its line"),
        LexemeHint::StringItem => String::from_str(
            alloc,
            "this string has an escape or a character that isn't supported",
        ),
        LexemeHint::Character => String::from_str(alloc, "this isn't a character that can be read"),
        LexemeHint::Fraction => String::from_str(
            alloc,
            "numbers with a fraction or an exponent aren't supported",
        ),
        LexemeHint::ReservedName => String::from_str(
            alloc,
            "a qualified name can't end in a reserved word",
        ),
        LexemeHint::Comment => String::from_str(alloc, "this comment isn't UTF-8"),
        LexemeHint::Dashes => format!(in alloc; "'{name}' is an operator, and begins no comment"),
        LexemeHint::Operator => format!(in alloc;
            "the operator '{name}' isn't supported: the only one is ':'"
        ),
        LexemeHint::NotAscii => String::from_str(
            alloc,
            "a character that isn't ASCII isn't allowed here",
        ),
        LexemeHint::NoText => String::from_str(alloc, "this byte isn't allowed here"),
        LexemeHint::CurlyQuote => String::from_str(
            alloc,
            "this curly quote isn't a quote of Haskell",
        ),
    }
}

/// Returns whether a comment of another language begins with this.
fn begins_comment(name: &[u8]) -> bool
    ensures { result ≡ begins_comment name.now }
{
    name == b"//".as_slice() || name == b"/*".as_slice() || name == b"#".as_slice()
}

/// Returns whether an operator of Haskell calculates.
fn is_arithmetic(name: &[u8]) -> bool
    ensures { result ≡ is_arithmetic name.now }
{
    name == b"+".as_slice()
        || name == b"-".as_slice()
        || name == b"*".as_slice()
        || name == b"/".as_slice()
        || name == b"^".as_slice()
        || name == b"**".as_slice()
}

/// Returns whether an operator of Haskell compares by order.
fn is_order(name: &[u8]) -> bool
    ensures { result ≡ is_order name.now }
{
    name == b"<".as_slice()
        || name == b">".as_slice()
        || name == b"<=".as_slice()
        || name == b">=".as_slice()
}

/// Returns whether an operator of Haskell is of a monad.
fn is_monadic(name: &[u8]) -> bool
    ensures { result ≡ is_monadic name.now }
{
    name == b">>=".as_slice() || name == b">>".as_slice() || name == b"=<<".as_slice()
}

/// Returns what to write instead of an operator.
fn operator_help(name: &[u8]) -> &'static str
    ensures { result.now ≡ operator_help name.now }
{
    if is_arithmetic(name) {
        "There is no arithmetic: declare a function, such as `plus :: Int -> Int -> Int ; plus = undefined`.\n"
    } else if name == b"++".as_slice() {
        "Write `concat [xs, ys]` for `xs ++ ys`.\n"
    } else if name == b".".as_slice() {
        "Write `\\x -> f (g x)` for `f . g`.\n"
    } else if name == b"$".as_slice() {
        "Write parentheses: `f (g x)` for `f $ g x`.\n"
    } else if name == b"&&".as_slice() {
        "Write `and [x, y]` for `x && y`.\n"
    } else if name == b"||".as_slice() {
        "Write `or [x, y]` for `x || y`.\n"
    } else if name == b"==".as_slice() || name == b"/=".as_slice() {
        "Compare by patterns, such as `f 0 = ..`, or take the comparison as an argument.\n"
    } else if is_order(name) {
        "Numbers and characters can't be compared by order: use patterns.\n"
    } else if name == b"!!".as_slice() {
        "Write `head (drop n xs)` for `xs !! n`.\n"
    } else if name == b"$!".as_slice() {
        "Write `seq x (f x)` for `f $! x`.\n"
    } else if name == b"!".as_slice() {
        "Write `not x` for `!x`. Leave it out before an argument of a constructor: no argument is strict.\n"
    } else if is_monadic(name) {
        "There is no IO and no monad.\n"
    } else if begins_comment(name) {
        "A comment begins with `--`.\n"
    } else {
        "Define a function with a name, and write it before its arguments.\n"
    }
}

/// Returns the second line of the text of a hint.
pub fn lexeme_help(hint: LexemeHint, name: &str) -> &'static str
    ensures { result.now ≡ lexeme_help hint name.now }
{
    match hint {
        LexemeHint::ByteOrderMark => "Save it as UTF-8 without one.\n",
        LexemeHint::Backquote => "Write it before its arguments: `f x y`.\n",
        LexemeHint::OpenString => "Write `\"` at its end.\n",
        LexemeHint::StringItem =>
            "Write `\\\\` for a backslash, and other characters by their numbers, such as `\\955`. Save the file as UTF-8.\n",
        LexemeHint::Character =>
            "Write one character between single quotes, or its number, such as `'\\955'`. A string is between double quotes.\n",
        LexemeHint::Fraction => "All numbers are of type Int.\n",
        LexemeHint::ReservedName => "A name with a dot is one name; there is no operator `.`.\n",
        LexemeHint::Comment => "Save the file as UTF-8.\n",
        LexemeHint::Dashes => "Write a space after the dashes.\n",
        LexemeHint::Operator => operator_help(name.as_bytes()),
        LexemeHint::NotAscii => "Outside comments, characters and strings a source is ASCII.\n",
        LexemeHint::NoText => "Outside comments, characters and strings a source is ASCII.\n",
        LexemeHint::CurlyQuote =>
            "Write straight quotes: `\"` around a string, and `'` around a character.\n",
    }
}
