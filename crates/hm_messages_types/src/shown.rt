//! Types as they are shown: names of synonyms stand for types, as in the signatures of the module.
ghost use Rattle.std.specs.Prelude.{◌≡◌, ◌++◌, ◌&&◌, ℕ, List, All, IfOk, IfSome, codes, false, map, string_bytes, true};
ghost use Rattle.hm_types.specs.Schemes.{HasArities, HasNoRigid};
ghost use Rattle.hm_types.specs.Shape.{type_of};
ghost use Rattle.hm_types.specs.StandardPrelude.{prelude_interface};
ghost use Rattle.hm_types_display.specs.Texts.{scheme_text_of};
ghost use Rattle.hm_messages_types.specs.Aliases.{alias_of as named_type};
ghost use Rattle.hm_messages_types.specs.Shown.{IsAlias, IsFolded, IsName, IsNameIn, IsPiece, NamedType, ends_name, is_bracketed, starts_name};

use crate::names::{name_len, starts_name};
use crate::question::Question;
use hm_messages_changes::Span;
use hm_messages_outline::{Lexed, Run, declarations_of, one};
use hm_parse_grammar::Symbol;
use hm_types::{Head, Interface, SynonymEntry, Ty};
use hm_types_display::scheme_text;
use hm_types_subsumption::canonical;
use std::alloc::{AllocError, Global};
use std::sync::Arc;

/// How many synonyms of a module are read.
const MOST_NAMES: usize = 64;

/// A name for a type: a synonym without parameters or the bare name of a type constructor, and the text of the type that it stands for.
#[derive(Drop)]
pub struct Alias {
    name: String,
    text: String,
}

impl Alias {
    /// Returns a name for the type with a text.
    pub fn new(name: String, text: String) -> Alias
        ensures { named_type result ≡ record { name = string_bytes name; text = string_bytes text } }
    {
        Alias { name, text }
    }
}

/// Returns the declarations of the module with this name, or no tokens.
fn body_of(lexed: &Lexed<'_>, name: &str) -> Run {
    match declarations_of(lexed, name) {
        Some(body) => body,
        None => Run { start: 0, end: 0 },
    }
}

/// Returns whether a type signature among these tokens has this name of a type.
fn is_signed(lexed: &Lexed<'_>, body: Run, name: &[u8]) -> bool {
    let mut is_type = false;
    for at in body.start..body.end {
        match lexed.outline.symbol(at) {
            Symbol::OfType => is_type = true,
            Symbol::Semicolon | Symbol::Equals | Symbol::RightBrace => is_type = false,
            Symbol::Con => {
                if is_type && lexed.text(at) == name {
                    return true;
                }
            }
            _ => {}
        }
    }
    false
}

/// Returns the names of the synonyms without parameters that a module declares and its signatures name.
pub fn names_in(alloc: Global, lexed: &Lexed<'_>, name: &str) -> Result<Vec<Span>, AllocError> {
    let body = body_of(lexed, name);
    let mut names = Vec::new(alloc);
    let mut count = 0usize;
    for at in body.start..body.end {
        if !is_synonym(lexed, at) {
            continue;
        }
        if count >= MOST_NAMES {
            return Ok(names);
        }
        count = count.saturating_add(1);
        let own = at.saturating_add(1);
        if is_signed(lexed, body, lexed.text(own)) {
            names.push(Span {
                from: lexed.start(own),
                to: lexed.end(one(own)),
            })?;
        }
    }
    Ok(names)
}

/// Returns whether the declaration of a synonym without parameters begins at a token.
fn is_synonym(lexed: &Lexed<'_>, at: usize) -> bool {
    lexed.outline.symbol(at).is(Symbol::TypeWord)
        && lexed.outline.symbol(at.saturating_add(1)).is(Symbol::Con)
        && lexed
            .outline
            .symbol(at.saturating_add(2))
            .is(Symbol::Equals)
}

/// Returns whether a declaration among these tokens declares this name of a type.
fn is_declared(lexed: &Lexed<'_>, body: Run, name: &str) -> bool {
    let mut is_head = false;
    for at in body.start..body.end {
        let symbol = lexed.outline.symbol(at);
        if is_head && symbol.is(Symbol::Con) && lexed.text(at) == name.as_bytes() {
            return true;
        }
        is_head = match symbol {
            Symbol::TypeWord | Symbol::Data | Symbol::Newtype => true,
            _ => false,
        };
    }
    false
}

/// Returns whether an interface exports a type or a synonym with this name.
fn has_name(interface: &Interface, name: &str) -> bool {
    if interface
        .types()
        .iter()
        .any(|entry| entry.name.as_str() == name)
    {
        return true;
    }
    interface
        .synonyms()
        .iter()
        .any(|entry| entry.name.as_str() == name)
}

/// Returns whether one of these interfaces exports a type or a synonym with this name.
fn have_name(interfaces: &[Arc<Interface>], name: &str) -> bool {
    for interface in interfaces {
        if has_name(interface, name) {
            return true;
        }
    }
    false
}

/// Returns whether Prelude, an import or the module of a question has a type or a synonym with this name. Whether it is in scope isn't looked up: a trial decides.
pub fn is_type_name(question: &Question<'_>, lexed: &Lexed<'_>, name: &str) -> bool {
    if has_name(question.prelude.interface(), name) || have_name(question.imports, name) {
        return true;
    }
    is_declared(lexed, body_of(lexed, question.name), name)
}

/// Returns whether a type is written in brackets of its own.
fn is_bracketed(ty: &Ty) -> bool
    ensures { result ≡ true → is_bracketed (type_of ty.now) ≡ true }
{
    match ty {
        Ty::App(Head::List, _) => true,
        Ty::App(Head::Tuple(_), _) => true,
        _ => false,
    }
}

/// Returns whether the entry is of a declaration of this module, with its own name.
fn is_own(entry: &SynonymEntry, home: &str) -> bool
    ensures module { result ≡ true → entry.now.entity.«module» ≡ home.now }
    ensures name { result ≡ true → entry.now.entity.name ≡ entry.now.name }
{
    if entry.entity.module.as_str() != home {
        return false;
    }
    entry.entity.name.as_str() == entry.name.as_str()
}

/// Returns the text of a type, if its variables are numbered by first occurrence.
pub fn text_of(alloc: Global, ty: &Ty) -> Result<Option<String>, AllocError>
    requires not_rigid { HasNoRigid (type_of ty.now) }
    requires arities { HasArities (type_of ty.now) }
    ensures { IfOk result (λ found. IfSome found (λ text. string_bytes text ≡ scheme_text_of (record { vars = 0; body = type_of ty.now }))) }
{
    let scheme = canonical(alloc, ty)?;
    if !scheme.body().is_same(ty) {
        return Ok(None);
    }
    Ok(Some(scheme_text(alloc, &scheme)?))
}

/// Returns the synonym as a name for a type, if it is of this module, has no parameters and stands for a list or a tuple.
fn alias_of(alloc: Global, home: &str, entry: &SynonymEntry) -> Result<Option<Alias>, AllocError>
    ensures { IfOk result (λ found. IfSome found (λ a. IsAlias home.now entry.now (named_type a))) }
{
    if !is_own(entry, home) {
        return Ok(None);
    }
    if entry.synonym.parameters() != 0 {
        return Ok(None);
    }
    let body = entry.synonym.body();
    if !is_bracketed(body) {
        return Ok(None);
    }
    let Some(text) = text_of(alloc, body)? else {
        return Ok(None);
    };
    let name = String::from_str(alloc, entry.name.as_str())?;
    Ok(Some(Alias { name, text }))
}

/// Returns the names for types that a module declares, of those that its interface exports and its signatures name.
fn own_aliases(
    alloc: Global,
    question: &Question<'_>,
    lexed: &Lexed<'_>,
    interface: &Interface,
) -> Result<Vec<Alias>, AllocError>
    ensures { IfOk result (λ found. All (λ a. IsNameIn question.now.name.now interface.now (named_type a)) found.items) }
{
    let body = body_of(lexed, question.name);
    let mut found = Vec::new(alloc);
    let entries = interface.synonyms();
    let count = entries.len().min(MOST_NAMES);
    for index in 0..count {
        let entry = &entries[index];
        let name = entry.name.as_str();
        if !is_signed(lexed, body, name.as_bytes())
            || has_name(question.prelude.interface(), name)
        {
            continue;
        }
        let Some(alias) = alias_of(alloc, question.name, entry)? else {
            continue;
        };
        found.push(alias)?;
    }
    Ok(found)
}

/// Returns the first synonym of Prelude as a name for a type, if a signature of the module means it.
fn prelude_alias(
    alloc: Global,
    question: &Question<'_>,
    lexed: &Lexed<'_>,
) -> Result<Option<Alias>, AllocError>
    ensures { IfOk result (λ found. IfSome found (λ a. IsNameIn (codes "Prelude") prelude_interface (named_type a))) }
{
    let body = body_of(lexed, question.name);
    let prelude: &Interface = question.prelude.interface();
    let entries = prelude.synonyms();
    if entries.is_empty() {
        return Ok(None);
    }
    let entry = &entries[0];
    let name = entry.name.as_str();
    if !is_signed(lexed, body, name.as_bytes()) || is_declared(lexed, body, name) {
        return Ok(None);
    }
    if have_name(question.imports, name) {
        return Ok(None);
    }
    Ok(alias_of(alloc, "Prelude", entry)?)
}

// Why: docs/DECISIONS.md, "Synonyms in types".
/// Returns the names for types that signatures of the module of a question have.
pub fn aliases_in(
    alloc: Global,
    question: &Question<'_>,
    lexed: &Lexed<'_>,
    interface: &Interface,
) -> Result<Vec<Alias>, AllocError>
    ensures { IfOk result (λ found. All (λ a. IsName question.now.name.now interface.now (named_type a)) found.items) }
{
    let mut found = own_aliases(alloc, question, lexed, interface)?;
    let Some(alias) = prelude_alias(alloc, question, lexed)? else {
        return Ok(found);
    };
    found.push(alias)?;
    Ok(found)
}

/// Returns the number of the name to show at the beginning of a text: of those whose types the text begins with the one with the longest,
/// if no other one stands for that type.
fn number_at(aliases: &[Alias], text: &[u8]) -> Option<usize> {
    let mut best: Option<usize> = None;
    let mut longest = 0usize;
    for number in 0..aliases.len() {
        let own = aliases[number].text.as_bytes();
        if !text.starts_with(own) || own.len() < longest {
            continue;
        }
        best = if own.len() == longest {
            None
        } else {
            Some(number)
        };
        longest = own.len();
    }
    best
}

/// Adds the first name of a text to what is shown, or its first byte if no name begins there. Returns the text after it.
fn add_word<'t>(shown: &mut Vec<u8>, text: &'t [u8]) -> Result<&'t [u8], AllocError>
    ensures { IfOk result (λ rest. (word : List ℕ) × (text.entry.now ≡ word ++ rest.now) × (shown.new.items ≡ shown.old.items ++ word)
        × ((ends_name word && starts_name rest.now) ≡ false)) }
{
    let len = name_len(text).max(1).min(text.len());
    let (word, rest) = text.split_at(len);
    shown.extend_from_slice(word)?;
    Ok(rest)
}

/// Adds the first piece of a text to what is shown, and returns the text after the piece.
fn add_piece<'t>(
    shown: &mut Vec<u8>,
    aliases: &[Alias],
    text: &'t [u8],
) -> Result<&'t [u8], AllocError>
    ensures { IfOk result (λ rest. (p : NamedType) × IsPiece (map named_type aliases.now) p × (text.entry.now ≡ p.text ++ rest.now)
        × (shown.new.items ≡ shown.old.items ++ p.name) × ((ends_name p.text && starts_name rest.now) ≡ false)) }
{
    if let Some(number) = number_at(aliases, text) {
        if number < aliases.len() {
            let alias = &aliases[number];
            if let Some(rest) = text.strip_prefix(alias.text.as_bytes()) {
                if !starts_name(rest) {
                    shown.extend_from_slice(alias.name.as_bytes())?;
                    return Ok(rest);
                }
            }
        }
    }
    Ok(add_word(shown, text)?)
}

/// Returns the bytes that are shown of a text with names for types, or `None` if not all of it is shown.
fn folded_bytes(
    alloc: Global,
    aliases: &[Alias],
    text: &[u8],
) -> Result<Option<Vec<u8>>, AllocError>
    ensures { IfOk result (λ found. IfSome found (λ shown. IsFolded (map named_type aliases.now) text.now shown.items)) }
{
    let mut shown = Vec::new(alloc);
    let mut rest = text;
    for _ in 0..text.len() {
        rest = add_piece(&mut shown, aliases, rest)?;
    }
    if rest.is_empty() {
        return Ok(Some(shown));
    }
    Ok(None)
}

/// Returns the text of a type with names for types.
pub fn folded(alloc: Global, aliases: &[Alias], text: &str) -> Result<String, AllocError>
    ensures { IfOk result (λ shown. IsFolded (map named_type aliases.now) text.now (string_bytes shown)) }
{
    let Some(shown) = folded_bytes(alloc, aliases, text.as_bytes())? else {
        return Ok(String::from_str(alloc, text)?);
    };
    match std::str::from_utf8(shown.as_slice()) {
        Ok(shown) => Ok(String::from_str(alloc, shown)?),
        Err(_) => Ok(String::from_str(alloc, text)?),
    }
}
