//! The form that a place is in, by the symbols before it.
ghost use Rattle.std.specs.Prelude.{◌≡◌, ◌⊎◌, ◌-◌, ◌<◌, length, slice_index_or, All, IfSome, true, false};
ghost use Rattle.hm_parse_grammar.specs.Symbols.{same};
ghost use Rattle.hm_parse_grammar.specs.declared.symbol.Symbol.TheVariants.{Else, End, LeftBrace, Module, Of, Semicolon, Then};
ghost use Rattle.hm_messages_hints.specs.SyntaxHints.{HasDeclaration, HasNoElse, HasNoThen, IsInAlternative, IsInGuard, IsInPatterns, IsInType, IsRightOf, begins_constructors, begins_declaration, begins_newtype, begins_patterns, begins_right, begins_type, ends_guard, is_of_pattern, is_of_type};

use hm_parse_grammar::Symbol;

/// Returns whether a type follows this, in a signature or a declaration.
fn begins_type(symbol: Symbol) -> bool
    ensures { result ≡ begins_type symbol }
{
    match symbol {
        Symbol::OfType | Symbol::Data | Symbol::Newtype | Symbol::TypeWord => true,
        _ => false,
    }
}

/// Returns whether constructors follow this.
fn begins_constructors(symbol: Symbol) -> bool
    ensures { result ≡ begins_constructors symbol }
{
    match symbol {
        Symbol::Data | Symbol::Newtype => true,
        _ => false,
    }
}

/// Returns whether the constructor of a newtype follows this.
fn begins_newtype(symbol: Symbol) -> bool
    ensures { result ≡ begins_newtype symbol }
{
    match symbol {
        Symbol::Newtype => true,
        _ => false,
    }
}

/// Returns whether the right side of a signature or of a declaration follows this.
fn begins_right(symbol: Symbol) -> bool
    ensures { result ≡ begins_right symbol }
{
    match symbol {
        Symbol::OfType | Symbol::Equals => true,
        _ => false,
    }
}

/// Returns whether this is in declarations, and in no import.
fn begins_declaration(symbol: Symbol) -> bool
    ensures { result ≡ begins_declaration symbol }
{
    match symbol {
        Symbol::Equals | Symbol::OfType | Symbol::Data | Symbol::Newtype | Symbol::TypeWord => true,
        _ => false,
    }
}

/// Returns whether patterns follow this, in a declaration, an alternative or a lambda.
fn begins_patterns(symbol: Symbol) -> bool
    ensures { result ≡ begins_patterns symbol }
{
    match symbol {
        Symbol::Semicolon | Symbol::LeftBrace | Symbol::Backslash => true,
        _ => false,
    }
}

/// Returns whether this ends a guard, or what the guard is in, or another mark follows it before the end of the guard.
fn ends_guard(symbol: Symbol) -> bool
    ensures { result ≡ ends_guard symbol }
{
    match symbol {
        Symbol::Equals
        | Symbol::Arrow
        | Symbol::Semicolon
        | Symbol::LeftBrace
        | Symbol::RightBrace
        | Symbol::If
        | Symbol::Backslash => true,
        _ => false,
    }
}

/// Returns whether types and the constructors of a declaration can have this in them.
fn is_of_type(symbol: Symbol) -> bool
    ensures { result ≡ is_of_type symbol }
{
    match symbol {
        Symbol::Var
        | Symbol::Con
        | Symbol::QCon
        | Symbol::Open
        | Symbol::Close
        | Symbol::OpenSquare
        | Symbol::CloseSquare
        | Symbol::Comma
        | Symbol::Arrow
        | Symbol::Equals
        | Symbol::Bar => true,
        _ => false,
    }
}

/// Returns whether patterns can have this in them.
fn is_of_pattern(symbol: Symbol) -> bool
    ensures { result ≡ is_of_pattern symbol }
{
    match symbol {
        Symbol::Var
        | Symbol::Con
        | Symbol::QCon
        | Symbol::Wild
        | Symbol::Integer
        | Symbol::Character
        | Symbol::Text
        | Symbol::Open
        | Symbol::Close
        | Symbol::OpenSquare
        | Symbol::CloseSquare
        | Symbol::Comma
        | Symbol::Colon
        | Symbol::At
        | Symbol::Tilde => true,
        _ => false,
    }
}

/// Returns whether types can have all of these in them.
fn are_of_type(symbols: &[Symbol]) -> bool
    ensures { result ≡ true → All (λ s. is_of_type s ≡ true) symbols.now }
{
    symbols.iter().all(|symbol| is_of_type(*symbol))
}

/// Returns whether patterns can have all of these in them.
fn are_of_pattern(symbols: &[Symbol]) -> bool
    ensures { result ≡ true → All (λ s. is_of_pattern s ≡ true) symbols.now }
{
    symbols.iter().all(|symbol| is_of_pattern(*symbol))
}

/// Returns whether none of these ends a guard.
fn are_of_guard(symbols: &[Symbol]) -> bool
    ensures { result ≡ true → All (λ s. ends_guard s ≡ false) symbols.now }
{
    symbols.iter().all(|symbol| !ends_guard(*symbol))
}

/// Returns whether none of these is `module`.
fn have_no_module(symbols: &[Symbol]) -> bool
    ensures { result ≡ true → All (λ s. same s Module ≡ false) symbols.now }
{
    symbols.iter().all(|symbol| !symbol.is(Symbol::Module))
}

/// Returns whether none of these is `then`.
fn have_no_then(symbols: &[Symbol]) -> bool
    ensures { result ≡ true → All (λ s. same s Then ≡ false) symbols.now }
{
    symbols.iter().all(|symbol| !symbol.is(Symbol::Then))
}

/// Returns whether none of these is `else`.
fn have_no_else(symbols: &[Symbol]) -> bool
    ensures { result ≡ true → All (λ s. same s Else ≡ false) symbols.now }
{
    symbols.iter().all(|symbol| !symbol.is(Symbol::Else))
}

/// Returns whether these end with a part of a type.
pub(crate) fn type_begins(symbols: &[Symbol]) -> bool
    ensures { result ≡ true → IsInType begins_type symbols.now }
{
    for from_end in 0..symbols.len() {
        let at = symbols.len() - 1 - from_end;
        if begins_type(symbols[at]) {
            return are_of_type(&symbols[at + 1..]);
        }
    }
    false
}

/// Returns whether these end with a part of the constructors of a declaration.
pub(crate) fn constructors_begin(symbols: &[Symbol]) -> bool
    ensures { result ≡ true → IsInType begins_constructors symbols.now }
{
    for from_end in 0..symbols.len() {
        let at = symbols.len() - 1 - from_end;
        if begins_constructors(symbols[at]) {
            return are_of_type(&symbols[at + 1..]);
        }
    }
    false
}

/// Returns whether the right side of a signature or of a declaration has begun after the symbol with this number.
fn right_begins(symbols: &[Symbol], start: usize) -> bool
    ensures { result ≡ true → IsRightOf symbols.now start }
{
    for at in start..symbols.len() {
        if begins_right(symbols[at]) {
            return true;
        }
    }
    false
}

/// Returns whether these end with a part of a type, of which a signature or the right side of a declaration consists.
pub(crate) fn right_type_begins(symbols: &[Symbol]) -> bool
    ensures { result ≡ true → (t : IsInType begins_type symbols.now) × IsRightOf symbols.now t.start }
{
    for from_end in 0..symbols.len() {
        let at = symbols.len() - 1 - from_end;
        if begins_type(symbols[at]) {
            if !right_begins(symbols, at) {
                return false;
            }
            return are_of_type(&symbols[at + 1..]);
        }
    }
    false
}

/// Returns whether these end with a part of a type after the `=` of a newtype.
pub(crate) fn right_newtype_begins(symbols: &[Symbol]) -> bool
    ensures { result ≡ true → (t : IsInType begins_newtype symbols.now) × IsRightOf symbols.now t.start }
{
    for from_end in 0..symbols.len() {
        let at = symbols.len() - 1 - from_end;
        if begins_newtype(symbols[at]) {
            if !right_begins(symbols, at) {
                return false;
            }
            return are_of_type(&symbols[at + 1..]);
        }
    }
    false
}

/// Returns whether a declaration is before this in the same module.
pub(crate) fn has_declaration(symbols: &[Symbol]) -> bool
    ensures { result ≡ true → HasDeclaration symbols.now }
{
    for from_end in 0..symbols.len() {
        let at = symbols.len() - 1 - from_end;
        if begins_declaration(symbols[at]) {
            return have_no_module(&symbols[at + 1..]);
        }
    }
    false
}

/// Returns whether these end with a part of patterns.
pub(crate) fn patterns_begin(symbols: &[Symbol]) -> bool
    ensures { result ≡ true → IsInPatterns symbols.now }
{
    for from_end in 0..symbols.len() {
        let at = symbols.len() - 1 - from_end;
        if begins_patterns(symbols[at]) {
            return are_of_pattern(&symbols[at + 1..]);
        }
    }
    false
}

/// Returns whether these end with a guard of a declaration, or a part of one, after the bracket with this number.
pub(crate) fn guard_begins(symbols: &[Symbol], bracket: usize) -> bool
    ensures { result ≡ true → IsInGuard symbols.now bracket }
{
    for from_end in 0..symbols.len() {
        let at = symbols.len() - 1 - from_end;
        if symbols[at].is(Symbol::Bar) {
            if at <= bracket || !patterns_begin(&symbols[..at]) {
                return false;
            }
            return are_of_guard(&symbols[at + 1..]);
        }
    }
    false
}

/// Returns the number of the last `if`, if no `then` follows it.
pub(crate) fn without_then(symbols: &[Symbol]) -> Option<usize>
    ensures { IfSome result (HasNoThen symbols.now) }
{
    for from_end in 0..symbols.len() {
        let at = symbols.len() - 1 - from_end;
        if symbols[at].is(Symbol::If) {
            return if have_no_then(&symbols[at + 1..]) {
                Some(at)
            } else {
                None
            };
        }
    }
    None
}

/// Returns the number of the last `if`, if it is after the bracket with this number and no `else` follows it.
pub(crate) fn without_else(symbols: &[Symbol], bracket: usize) -> Option<usize>
    ensures after { IfSome result (λ at. bracket < at) }
    ensures open { IfSome result (HasNoElse symbols.now) }
{
    for from_end in 0..symbols.len() {
        let at = symbols.len() - 1 - from_end;
        if symbols[at].is(Symbol::If) {
            return if at > bracket && have_no_else(&symbols[at + 1..]) {
                Some(at)
            } else {
                None
            };
        }
    }
    None
}

/// Returns whether the symbol with this number is the `{` of a `case`.
fn holds_alternatives(symbols: &[Symbol], bracket: usize) -> bool
    ensures of { result ≡ true → slice_index_or symbols.now (bracket - 1) End ≡ Of }
    ensures brace { result ≡ true → slice_index_or symbols.now bracket End ≡ LeftBrace }
{
    if bracket == 0 || bracket >= symbols.len() {
        return false;
    }
    if !symbols[bracket].is(Symbol::LeftBrace) {
        return false;
    }
    symbols[bracket - 1].is(Symbol::Of)
}

/// Returns whether an alternative may follow the symbol at `at`, within the `{` at `bracket`.
fn precedes_alternative(symbols: &[Symbol], bracket: usize, at: usize) -> bool
    requires { at < length symbols.now }
    ensures { result ≡ true → (at ≡ bracket) ⊎ (slice_index_or symbols.now at End ≡ Semicolon) }
{
    if at == bracket {
        return true;
    }
    symbols[at].is(Symbol::Semicolon)
}

/// Returns whether these end with a part of a pattern that begins an alternative within the bracket with this number.
pub(crate) fn alternative_begins(symbols: &[Symbol], bracket: usize) -> bool
    ensures { result ≡ true → IsInAlternative symbols.now bracket }
{
    if !holds_alternatives(symbols, bracket) {
        return false;
    }
    for from_end in 0..symbols.len().saturating_sub(bracket) {
        let at = symbols.len() - 1 - from_end;
        if precedes_alternative(symbols, bracket, at) {
            return are_of_pattern(&symbols[at + 1..]);
        }
    }
    false
}
