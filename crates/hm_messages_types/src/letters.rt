//! Types with the letters of a signature.
ghost use Rattle.std.specs.Prelude.{◌≡◌, ◌++◌, ◌&&◌, List, ℕ, All, AllPairs, Contains, IfNone, IfOk, IfSome, IsSome, codes, false, map, string_bytes, true};
ghost use Rattle.hm_lex.specs.Bytes.{is_white};
ghost use Rattle.hm_messages_types.specs.Lettered.{letter_of};
ghost use Rattle.hm_messages_types.specs.Letters.{AreApart, HaveLetters, IsLettered, IsOneWord, IsSignedWith, IsWord, unspaced};
ghost use Rattle.hm_messages_types.specs.Shown.{NamedType, ends_name, starts_name};

use crate::names::name_len;
use hm_messages_outline::{Lexed, Run, bytes_in, one};
use hm_parse_grammar::Symbol;
use std::alloc::{AllocError, Global};

/// The letters of variables that aren't in a signature.
const ALPHABET: &[u8] = b"abcdefghijklmnopqrstuvwxyz";

/// A type variable: its name in a signature, and its text in types.
#[derive(Clone, Copy)]
struct Letter<'a> {
    name: &'a [u8],
    text: &'a [u8],
}

/// The text of a definition's type, and those of two types of a part of it.
#[derive(Clone, Copy)]
pub struct Texts<'a> {
    pub own: &'a str,
    pub expected: &'a str,
    pub actual: &'a str,
}

/// The texts of two types with the letters of a signature.
#[derive(Drop)]
pub struct Lettered {
    pub expected: String,
    pub actual: String,
}

/// Returns whether a variable has this text.
fn has_text(letter: &Letter<'_>, text: &[u8]) -> bool
    ensures has { result ≡ true → (letter_of letter.now).text ≡ text.now }
    ensures hasnt { result ≡ false → ¬ ((letter_of letter.now).text ≡ text.now) }
{
    letter.text == text
}

/// Returns whether a variable has this name.
fn is_named(letter: &Letter<'_>, name: &[u8]) -> bool
    ensures { result ≡ false → ¬ ((letter_of letter.now).name ≡ name.now) }
{
    letter.name == name
}

/// Returns the variable with this text.
fn letter_for<'a>(letters: &[Letter<'a>], text: &[u8]) -> Option<Letter<'a>>
    ensures some { IfSome result (λ l. Contains (map letter_of letters.now) (letter_of l)) }
    ensures text { IfSome result (λ l. (letter_of l).text ≡ text.now) }
    ensures none { IfNone result (All (λ l. ¬ ((letter_of l).text ≡ text.now)) letters.now) }
{
    'letters: for at in 0..letters.len() {
        let letter = &letters[at];
        if has_text(letter, text) {
            return Some(*letter);
        }
    }
    None
}

/// Returns whether one of these variables has this name.
fn has_name(letters: &[Letter<'_>], name: &[u8]) -> bool
    ensures { result ≡ false → All (λ l. ¬ ((letter_of l).name ≡ name.now)) letters.now }
{
    'letters: for at in 0..letters.len() {
        let letter = &letters[at];
        if is_named(letter, name) {
            return true;
        }
    }
    false
}

/// A text after its first word.
#[derive(Clone, Copy)]
struct Word<'t> {
    word: &'t [u8],
    rest: &'t [u8],
}

/// Returns the first word of a text: a name, or one byte that is in none.
fn first_word(text: &[u8]) -> Word<'_>
    ensures parts { text.entry.now ≡ result.word.now ++ result.rest.now }
    ensures one { IsOneWord result.word.now }
    ensures whole { (ends_name result.word.now && starts_name result.rest.now) ≡ false }
{
    let len = name_len(text).max(1).min(text.len());
    let (word, rest) = text.split_at(len);
    Word { word, rest }
}

/// Adds the first word of a text to what is shown: a variable by its name, another word as it is. Returns the text after it, or `None` if another word is the name
/// of a variable.
fn add_word<'t>(
    shown: &mut Vec<u8>,
    letters: &[Letter<'_>],
    text: &'t [u8],
) -> Result<Option<&'t [u8]>, AllocError>
    ensures { IfOk result (λ found. IfSome found (λ rest. (p : NamedType) × IsWord (map letter_of letters.now) p × (text.entry.now ≡ p.text ++ rest.now)
        × (shown.new.items ≡ shown.old.items ++ p.name) × ((ends_name p.text && starts_name rest.now) ≡ false))) }
{
    let Word { word, rest } = first_word(text);
    if let Some(letter) = letter_for(letters, word) {
        shown.extend_from_slice(letter.name)?;
        return Ok(Some(rest));
    }
    if has_name(letters, word) {
        return Ok(None);
    }
    shown.extend_from_slice(word)?;
    Ok(Some(rest))
}

/// Returns the bytes of a text with each variable by its name, or `None` if another word is the name of a variable.
fn lettered_bytes(
    alloc: Global,
    letters: &[Letter<'_>],
    text: &[u8],
) -> Result<Option<Vec<u8>>, AllocError>
    ensures { IfOk result (λ found. IfSome found (λ shown. IsLettered (map letter_of letters.now) text.now shown.items)) }
{
    let mut shown = Vec::new(alloc);
    let mut rest = text;
    for _ in 0..text.len() {
        match add_word(&mut shown, letters, rest)? {
            Some(after) => rest = after,
            None => return Ok(None),
        }
    }
    if rest.is_empty() {
        return Ok(Some(shown));
    }
    Ok(None)
}

/// Returns a text with each variable by its name, or `None` if another word is the name of a variable.
fn text_with(
    alloc: Global,
    letters: &[Letter<'_>],
    text: &str,
) -> Result<Option<String>, AllocError>
    ensures { IfOk result (λ found. IfSome found (λ shown. IsLettered (map letter_of letters.now) text.now (string_bytes shown))) }
{
    let Some(shown) = lettered_bytes(alloc, letters, text.as_bytes())? else {
        return Ok(None);
    };
    match std::str::from_utf8(shown.as_slice()) {
        Ok(shown) => Ok(Some(String::from_str(alloc, shown)?)),
        Err(_) => Ok(None),
    }
}

/// Returns whether a byte is white space in a source.
#[tactic(auto, unfolding(hm_lex::specs::Bytes::class_of))]
fn is_white(byte: u8) -> bool
    ensures { result ≡ is_white byte }
{
    matches!(byte, b'\t'..=b'\r' | b' ')
}

/// Returns the bytes of a text that aren't white space.
fn unspaced(alloc: Global, text: &[u8]) -> Result<Vec<u8>, AllocError>
    ensures { IfOk result (λ kept. kept.items ≡ unspaced text.now) }
{
    let mut kept = Vec::new(alloc);
    'bytes: for byte in text {
        if !is_white(*byte) {
            kept.push(*byte)?;
        }
    }
    Ok(kept)
}

/// Returns whether these bytes of a source are the signature of a definition with this type, up to white space.
fn is_signed_with(
    alloc: Global,
    source: &[u8],
    bytes: (usize, usize),
    definition: &str,
    ty: &str,
) -> Result<bool, AllocError>
    ensures { IfOk result (λ yes. yes ≡ true → IsSignedWith source.now definition.now ty.now) }
{
    let (from, to) = bytes;
    if from > to || to > source.len() {
        return Ok(false);
    }
    let here = unspaced(alloc, &source[from..to])?;
    let whole = format!(in alloc; "{definition}::{ty}")?;
    let expected = unspaced(alloc, whole.as_bytes())?;
    Ok(here.as_slice() == expected.as_slice())
}

/// Returns whether a word is a type variable.
fn is_variable(word: &[u8]) -> bool {
    match word.first() {
        Some(first) => matches!(*first, b'a'..=b'z' | b'_'),
        None => false,
    }
}

/// Returns whether a name is among others.
fn is_among(names: &[&[u8]], name: &[u8]) -> bool {
    for other in names {
        if *other == name {
            return true;
        }
    }
    false
}

/// Adds a name that isn't there yet.
fn add_name<'a>(names: &mut Vec<&'a [u8]>, name: &'a [u8]) -> Result<(), AllocError> {
    if names.len() > ALPHABET.len() || is_among(names.as_slice(), name) {
        return Ok(());
    }
    Ok(names.push(name)?)
}

/// Adds the type variables of a text, each once.
fn add_variables<'t>(found: &mut Vec<&'t [u8]>, text: &'t [u8]) -> Result<(), AllocError> {
    let mut left = text;
    for _ in 0..text.len() {
        let Word { word, rest } = first_word(left);
        if is_variable(word) {
            add_name(found, word)?;
        }
        left = rest;
    }
    Ok(())
}

/// Returns the type variables of a signature, each once, in order.
fn signature_names<'a>(
    alloc: Global,
    lexed: &Lexed<'a>,
    written: Run,
) -> Result<Vec<&'a [u8]>, AllocError> {
    let mut names = Vec::new(alloc);
    for at in written.start..written.end {
        if lexed.outline.symbol(at).is(Symbol::Var) {
            let name = bytes_in(lexed.source, lexed.start(at), lexed.end(one(at)));
            add_name(&mut names, name)?;
        }
    }
    Ok(names)
}

/// Returns the name of a variable that isn't in the signature: its own text, or the first letter that is neither among these names nor among the variables.
fn free_name<'a>(names: &[&'a [u8]], variables: &[&'a [u8]], text: &'a [u8]) -> &'a [u8] {
    if !is_among(names, text) {
        return text;
    }
    for at in 0..ALPHABET.len() {
        let letter = bytes_in(ALPHABET, at, at + 1);
        if !is_among(names, letter) && !is_among(variables, letter) {
            return letter;
        }
    }
    text
}

/// Adds a variable, unless one has its name or its text. Returns whether it is added.
fn add_letter<'a>(
    letters: &mut Vec<Letter<'a>>,
    name: &'a [u8],
    text: &'a [u8],
) -> Result<bool, AllocError>
    ensures { IfOk result (λ added. AreApart (map letter_of letters.old.items) → AreApart (map letter_of letters.new.items)) }
{
    if has_name(letters.as_slice(), name) {
        return Ok(false);
    }
    if letter_for(letters.as_slice(), text).is_some() {
        return Ok(false);
    }
    letters.push(Letter { name, text })?;
    Ok(true)
}

/// Returns the variables with these names and these texts, or `None` if two of them have the same.
fn letters_by<'a>(
    alloc: Global,
    names: &[&'a [u8]],
    variables: &[&'a [u8]],
) -> Result<Option<Vec<Letter<'a>>>, AllocError>
    ensures { IfOk result (λ found. IfSome found (λ letters. AreApart (map letter_of letters.items))) }
{
    let mut letters = Vec::new(alloc);
    for at in 0..variables.len().min(names.len()) {
        if !add_letter(&mut letters, names[at], variables[at])? {
            return Ok(None);
        }
    }
    Ok(Some(letters))
}

/// Returns the variables of the types, with the names that those of the definition's type have in its signature, or `None` if the two have different numbers
/// of variables.
fn letters_in<'a>(
    alloc: Global,
    lexed: &Lexed<'a>,
    written: Run,
    texts: &Texts<'a>,
) -> Result<Option<Vec<Letter<'a>>>, AllocError>
    ensures { IfOk result (λ found. IfSome found (λ letters. AreApart (map letter_of letters.items))) }
{
    let mut names = signature_names(alloc, lexed, written)?;
    let mut variables = Vec::new(alloc);
    add_variables(&mut variables, texts.own.as_bytes())?;
    if variables.is_empty() || variables.len() != names.len() {
        return Ok(None);
    }
    add_variables(&mut variables, texts.expected.as_bytes())?;
    add_variables(&mut variables, texts.actual.as_bytes())?;
    for at in names.len()..variables.len() {
        let name = free_name(names.as_slice(), variables.as_slice(), variables[at]);
        names.push(name)?;
    }
    Ok(letters_by(alloc, names.as_slice(), variables.as_slice())?)
}

// Why: docs/DECISIONS.md, "Letters of signatures".
/// Returns the texts of two types of a part of a definition with the letters of its signature.
///
/// None if the definition's type isn't shown as the signature is written, as where that has a synonym with parameters.
pub fn with_letters(
    alloc: Global,
    lexed: &Lexed<'_>,
    signature: Run,
    definition: &str,
    texts: &Texts<'_>,
) -> Result<Option<Lettered>, AllocError>
    ensures { IfOk result (λ found. IfSome found (λ l. HaveLetters lexed.now.source.now definition.now texts.now.own.now texts.now.expected.now texts.now.actual.now
        (string_bytes l.expected) (string_bytes l.actual))) }
{
    let Some(mark) = lexed
        .outline
        .find(signature.start, signature.end, Symbol::OfType)
    else {
        return Ok(None);
    };
    let written = Run {
        start: mark,
        end: signature.end,
    };
    let Some(letters) = letters_in(alloc, lexed, written, texts)? else {
        return Ok(None);
    };
    let Some(own) = text_with(alloc, letters.as_slice(), texts.own)? else {
        return Ok(None);
    };
    let bytes = (lexed.start(mark.saturating_sub(1)), lexed.end(written));
    if !is_signed_with(alloc, lexed.source, bytes, definition, own.as_str())? {
        return Ok(None);
    }
    let Some(expected) = text_with(alloc, letters.as_slice(), texts.expected)? else {
        return Ok(None);
    };
    match text_with(alloc, letters.as_slice(), texts.actual)? {
        Some(actual) => Ok(Some(Lettered { expected, actual })),
        None => Ok(None),
    }
}
