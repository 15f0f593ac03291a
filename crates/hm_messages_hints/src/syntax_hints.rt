//! The hint at a fault of syntax.
ghost use Rattle.std.specs.Prelude.{◌≡◌, ◌⊎◌, ◌-◌, IfSome, length, slice_index_or, take, false, true};
ghost use Rattle.hm_parse_grammar.specs.declared.symbol.Symbol.TheVariants.{Bar, Close, CloseSquare, Con, End, Import, LeftBrace, Of, Open, OpenSquare, QCon};
ghost use Rattle.hm_parse_grammar.specs.Symbols.{same};
ghost use Rattle.hm_parse_grammar.specs.Reading.Types.{begins_atype};
ghost use Rattle.hm_messages_outline.specs.Brackets.{IsInnermost};
ghost use Rattle.hm_messages_hints.specs.SyntaxHints.{ClosesAfter, IsPlaceOf, IsInPatterns, IsSyntaxHint, begins_expression, ends, ends_operand, ends_pattern, is_partner, takes_capital, takes_constructor, wants_brace};

use crate::change::Repair;
use crate::contexts::{
    alternative_begins, constructors_begin, guard_begins, has_declaration, patterns_begin,
    right_newtype_begins, right_type_begins, type_begins, without_else, without_then,
};
use crate::features::{Feature, feature_of};
use hm_lex::Place;
use hm_messages_outline::open_bracket;
use hm_parse_grammar::Symbol;

/// A fact about the first token with which no source begins. Other tokens are given by their numbers, from 0.
#[derive(Clone, Copy, Debug, PartialEq, Eq)]
pub enum SyntaxHint {
    /// Nothing is before it.
    NoHeader,
    /// A `}` is before it, and no bracket is open.
    ModuleEnded,
    /// `where`, `let` or `of` is before it, and it isn't `{`.
    NoBrace,
    /// A part of Haskell that isn't read begins with it.
    LeftOut(Feature),
    /// It is `|`, directly within the `[` with this number.
    Comprehension(usize),
    /// It is `..`, directly within the `[` with this number.
    Range(usize),
    /// It is a small name where only a capital one may be.
    SmallName,
    /// It begins a type right after a type variable, in a signature or after the `=` of a declaration.
    AppliedVariable,
    /// With this change of one token the source, or the declaration, can be read.
    Repaired(Repair),
    /// It is `where`, directly within the `(` or `[` with this number.
    WherePart(usize),
    /// It can be only after something complete, and no `else` follows the `if` with this number.
    NoElse(usize),
    /// It can be only after something complete, and doesn't close the innermost open bracket, which has this number.
    NotClosed(usize),
    /// It is in the pattern of an alternative, directly within the `{` with this number, which follows `of`.
    InPattern(usize),
    /// It is a `{` after a capital name.
    Record,
    /// It is a `{` after a small name or a `)`.
    Update,
    /// It is a `}` right after `of {`.
    NoAlternative,
    Unexpected,
    /// It begins a pattern right after a variable in patterns, directly within the `(` or `[` with this number.
    AppliedName(usize),
    /// It is `::` after a pattern.
    TypedPattern,
    /// It is `:` after a pattern.
    ConsPattern,
    /// It is `|` after `=`, before which patterns are.
    GuardAfterEquals,
    /// It is `->` after a guard of a declaration, directly within the `{` with this number, which doesn't follow `of`.
    GuardArrow(usize),
    /// It is `,` among the constructors of a declaration, directly within the `{` with this number.
    ConstructorComma(usize),
    /// It is `,` after a number.
    NumberComma,
    /// It is `where` after `;`.
    WhereAfterSemicolon,
    /// It is `{`, and no `then` follows the `if` with this number.
    NoThen(usize),
    /// It begins a type, or is `|`, after the `=` of a newtype, directly within the `{` with this number.
    NewtypeArguments(usize),
    /// It is `qualified` after the module of an import.
    LateQualified,
    /// It is `@`.
    AtSign,
    /// It is `|` after `;`.
    GuardAfterSemicolon,
    /// It is `import` after `;`, and a declaration of the module is before it.
    LateImport,
    /// It is `)` or `]` after `,`.
    ExtraComma,
    /// It is `else` after `|`.
    ElseGuard,
    /// It is `_`.
    Hole,
    /// It is `=`, and no `then` follows the `if` with this number.
    EqualsInCondition(usize),
    /// It isn't `in`, and is right after the `}` of the `{` with this number, which follows `let`.
    NoIn(usize),
    /// It is `where` right after the `}` of the `{` with this number, which follows another `where`.
    SecondWhere(usize),
    /// It is `{` where an expression begins.
    BraceGroup,
    /// It is `=` after a guard of an alternative, directly within the `{` with this number, which follows `of`.
    GuardEquals(usize),
}

/// A hint at a fault of syntax, and the text of the token that it is about. The text is empty at the end of the source.
#[derive(Clone, Copy, Debug)]
pub struct Advice<'a> {
    pub hint: SyntaxHint,
    pub text: &'a str,
    /// The place of that token, if it isn't the one at the fault.
    pub elsewhere: Option<Place>,
}

/// Returns whether `{` follows this in every source.
fn wants_brace(symbol: Symbol) -> bool
    ensures { result ≡ wants_brace symbol }
{
    match symbol {
        Symbol::Where | Symbol::Let | Symbol::Of => true,
        _ => false,
    }
}

/// Returns whether only a capital name may follow this.
fn takes_capital(symbol: Symbol) -> bool
    ensures { result ≡ takes_capital symbol }
{
    match symbol {
        Symbol::Module | Symbol::Import | Symbol::Data | Symbol::Newtype | Symbol::TypeWord => true,
        _ => false,
    }
}

/// Returns whether a constructor follows this in a declaration.
fn takes_constructor(symbol: Symbol) -> bool
    ensures { result ≡ takes_constructor symbol }
{
    match symbol {
        Symbol::Equals | Symbol::Bar => true,
        _ => false,
    }
}

/// Returns whether this can be only after something complete.
fn ends(symbol: Symbol) -> bool
    ensures { result ≡ ends symbol }
{
    match symbol {
        Symbol::Semicolon
        | Symbol::Close
        | Symbol::CloseSquare
        | Symbol::RightBrace
        | Symbol::End => true,
        _ => false,
    }
}

/// Returns whether this is a name or a bracket with which an expression may end.
fn ends_operand(symbol: Symbol) -> bool
    ensures { result ≡ ends_operand symbol }
{
    match symbol {
        Symbol::Var | Symbol::Close => true,
        _ => false,
    }
}

/// Returns whether a pattern may end with this.
fn ends_pattern(symbol: Symbol) -> bool
    ensures { result ≡ ends_pattern symbol }
{
    match symbol {
        Symbol::Var
        | Symbol::Con
        | Symbol::QCon
        | Symbol::Wild
        | Symbol::Integer
        | Symbol::Character
        | Symbol::Text
        | Symbol::Close
        | Symbol::CloseSquare => true,
        _ => false,
    }
}

/// Returns whether the part of Haskell can begin after these.
fn is_place_of(feature: Feature, before: &[Symbol]) -> bool
    ensures { result ≡ true → IsPlaceOf feature before.now }
{
    match feature {
        Feature::Context => type_begins(before),
        Feature::Class => true,
        Feature::Instance => true,
        Feature::Deriving => true,
        Feature::Default => true,
        Feature::Do => true,
        Feature::Fixity => true,
        Feature::Generator => true,
    }
}

/// Returns whether `symbol` closes the bracket. A `;` within braces counts too.
fn is_partner(bracket: Symbol, symbol: Symbol) -> bool
    ensures { result ≡ is_partner bracket symbol }
{
    match bracket {
        Symbol::Open => symbol.is(Symbol::Close),
        Symbol::OpenSquare => symbol.is(Symbol::CloseSquare),
        Symbol::LeftBrace => symbol.is(Symbol::RightBrace) || symbol.is(Symbol::Semicolon),
        _ => false,
    }
}

/// Returns whether these end with `of {`.
fn ends_with_of(before: &[Symbol]) -> bool
    ensures brace { result ≡ true → slice_index_or before.now (length before.now - 1) End ≡ LeftBrace }
    ensures of { result ≡ true → slice_index_or before.now (length before.now - 2) End ≡ Of }
{
    if before.len() < 2 {
        return false;
    }
    if !before[before.len() - 1].is(Symbol::LeftBrace) {
        return false;
    }
    before[before.len() - 2].is(Symbol::Of)
}

/// Returns whether these end with `import` and one more token.
fn ends_with_import(before: &[Symbol]) -> bool
    ensures { result ≡ true → slice_index_or before.now (length before.now - 2) End ≡ Import }
{
    if before.len() < 2 {
        return false;
    }
    before[before.len() - 2].is(Symbol::Import)
}

/// Returns whether this is a capital name.
fn is_capital(symbol: Symbol) -> bool
    ensures { result ≡ true → (symbol ≡ Con) ⊎ (symbol ≡ QCon) }
{
    match symbol {
        Symbol::Con => true,
        Symbol::QCon => true,
        _ => false,
    }
}

/// Returns whether this is `)` or `]`.
fn closes_round_or_square(symbol: Symbol) -> bool
    ensures { result ≡ true → (symbol ≡ Close) ⊎ (symbol ≡ CloseSquare) }
{
    match symbol {
        Symbol::Close => true,
        Symbol::CloseSquare => true,
        _ => false,
    }
}

/// Returns whether the bracket with this number follows `of`.
fn follows_of(before: &[Symbol], at: usize) -> bool
    ensures { result ≡ same (slice_index_or before.now (at - 1) End) Of }
{
    let number = at.saturating_sub(1);
    if number >= before.len() {
        return false;
    }
    before[number].is(Symbol::Of)
}

/// Returns whether all of these but the last end with a part of patterns.
fn patterns_end(before: &[Symbol]) -> bool
    ensures { result ≡ true → IsInPatterns (take (length before.now - 1) before.now) }
{
    if before.is_empty() {
        return false;
    }
    patterns_begin(&before[..before.len() - 1])
}

/// Returns whether the bracket is `(` or `[`.
fn is_round_or_square(bracket: Symbol) -> bool
    ensures { result ≡ true → (bracket ≡ Open) ⊎ (bracket ≡ OpenSquare) }
{
    match bracket {
        Symbol::Open => true,
        Symbol::OpenSquare => true,
        _ => false,
    }
}

/// Returns whether this begins a type, or is `|`.
fn goes_on_with_types(here: Symbol) -> bool
    ensures { result ≡ true → (begins_atype here ≡ true) ⊎ (here ≡ Bar) }
{
    if here.begins_atype() {
        return true;
    }
    here.is(Symbol::Bar)
}

/// Returns a fact about a declaration, directly within the `{` with this number.
fn declaration_hint(before: &[Symbol], at: usize, here: Symbol, text: &[u8]) -> Option<SyntaxHint>
    requires { IsInnermost before.now at }
    ensures { IfSome result (IsSyntaxHint before.now here text.now) }
{
    if at >= before.len() {
        return None;
    }
    if !before[at].is(Symbol::LeftBrace) {
        return None;
    }
    if here.is(Symbol::Comma) && constructors_begin(before) {
        return Some(SyntaxHint::ConstructorComma(at));
    }
    if goes_on_with_types(here) && right_newtype_begins(before) {
        return Some(SyntaxHint::NewtypeArguments(at));
    }
    if here.is(Symbol::Arrow) && !follows_of(before, at) && guard_begins(before, at) {
        return Some(SyntaxHint::GuardArrow(at));
    }
    if here.is(Symbol::Equals) && follows_of(before, at) && guard_begins(before, at) {
        return Some(SyntaxHint::GuardEquals(at));
    }
    None
}

/// Returns a fact about an argument of a variable in patterns, within the open bracket with this number.
fn argument_hint(
    before: &[Symbol],
    at: usize,
    last: Symbol,
    here: Symbol,
    text: &[u8],
) -> Option<SyntaxHint>
    requires innermost { IsInnermost before.now at }
    requires last { last ≡ slice_index_or before.now (length before.now - 1) End }
    ensures { IfSome result (IsSyntaxHint before.now here text.now) }
{
    if at >= before.len() {
        return None;
    }
    if !is_round_or_square(before[at]) {
        return None;
    }
    if last.is(Symbol::Var) && here.begins_apat() && patterns_begin(before) {
        return Some(SyntaxHint::AppliedName(at));
    }
    None
}

/// Returns whether an expression follows this.
fn begins_expression(symbol: Symbol) -> bool
    ensures { result ≡ begins_expression symbol }
{
    match symbol {
        Symbol::Equals | Symbol::Arrow | Symbol::If | Symbol::Then | Symbol::Else | Symbol::In =>
            true,
        _ => false,
    }
}

/// Returns whether the bracket with this number is a `{` after this word.
fn is_brace_after(before: &[Symbol], at: usize, word: Symbol) -> bool
    ensures brace { result ≡ true → slice_index_or before.now at End ≡ LeftBrace }
    ensures word { result ≡ true → slice_index_or before.now (at - 1) End ≡ word }
{
    if at == 0 || at >= before.len() {
        return false;
    }
    if !before[at].is(Symbol::LeftBrace) {
        return false;
    }
    before[at - 1].is(word)
}

/// Returns the number of the `{` that the last of these closes, if it closes one that follows this word.
fn closed_after(before: &[Symbol], last: Symbol, word: Symbol) -> Option<usize>
    requires { last ≡ slice_index_or before.now (length before.now - 1) End }
    ensures { IfSome result (ClosesAfter word before.now) }
{
    if before.is_empty() {
        return None;
    }
    if !last.is(Symbol::RightBrace) {
        return None;
    }
    let at = open_bracket(&before[..before.len() - 1])?;
    if !is_brace_after(before, at, word) {
        return None;
    }
    Some(at)
}

/// Returns a fact about what is right after the definitions of a `let` or a `where`.
fn closed_hint(before: &[Symbol], last: Symbol, here: Symbol, text: &[u8]) -> Option<SyntaxHint>
    requires { last ≡ slice_index_or before.now (length before.now - 1) End }
    ensures { IfSome result (IsSyntaxHint before.now here text.now) }
{
    if !here.is(Symbol::In) {
        match closed_after(before, last, Symbol::Let) {
            Some(at) => return Some(SyntaxHint::NoIn(at)),
            None => {}
        }
    }
    if !here.is(Symbol::Where) {
        return None;
    }
    match open_bracket(before) {
        Some(_) => {}
        None => return None,
    }
    match closed_after(before, last, Symbol::Where) {
        Some(at) => Some(SyntaxHint::SecondWhere(at)),
        None => None,
    }
}

/// Returns a fact about a mark where an expression is expected.
fn expression_hint(before: &[Symbol], last: Symbol, here: Symbol, text: &[u8]) -> Option<SyntaxHint>
    requires { last ≡ slice_index_or before.now (length before.now - 1) End }
    ensures { IfSome result (IsSyntaxHint before.now here text.now) }
{
    if last.is(Symbol::Bar) && here.is(Symbol::Else) {
        return Some(SyntaxHint::ElseGuard);
    }
    if here.is(Symbol::Wild) {
        return Some(SyntaxHint::Hole);
    }
    if begins_expression(last) && here.is(Symbol::LeftBrace) && !constructors_begin(before) {
        return Some(SyntaxHint::BraceGroup);
    }
    None
}

/// Returns a fact about a `=` in the condition of an `if`, within the open bracket with this number.
fn condition_hint(
    before: &[Symbol],
    bracket: usize,
    here: Symbol,
    text: &[u8],
) -> Option<SyntaxHint>
    requires { IsInnermost before.now bracket }
    ensures { IfSome result (IsSyntaxHint before.now here text.now) }
{
    if !here.is(Symbol::Equals) {
        return None;
    }
    let at = without_then(before)?;
    if at <= bracket {
        return None;
    }
    Some(SyntaxHint::EqualsInCondition(at))
}

/// Returns the hint within an open bracket that doesn't need to be closed first.
fn complete_hint(before: &[Symbol], bracket: usize, here: Symbol, text: &[u8]) -> SyntaxHint
    requires { IsInnermost before.now bracket }
    ensures { IsSyntaxHint before.now here text.now result }
{
    if ends(here) {
        if let Some(at) = without_else(before, bracket) {
            return SyntaxHint::NoElse(at);
        }
    }
    match condition_hint(before, bracket, here, text) {
        Some(hint) => return hint,
        None => {}
    }
    if alternative_begins(before, bracket) {
        return SyntaxHint::InPattern(bracket);
    }
    SyntaxHint::Unexpected
}

/// Returns the hint within an open bracket.
fn bracket_hint(before: &[Symbol], at: usize, here: Symbol, text: &[u8]) -> SyntaxHint
    requires { IsInnermost before.now at }
    ensures { IsSyntaxHint before.now here text.now result }
{
    if at >= before.len() {
        return SyntaxHint::Unexpected;
    }
    let bracket = before[at];
    if bracket.is(Symbol::OpenSquare) && here.is(Symbol::Bar) {
        return SyntaxHint::Comprehension(at);
    }
    if bracket.is(Symbol::OpenSquare) && here.is(Symbol::Dots) {
        return SyntaxHint::Range(at);
    }
    if here.is(Symbol::Where) && (bracket.is(Symbol::Open) || bracket.is(Symbol::OpenSquare)) {
        return SyntaxHint::WherePart(at);
    }
    if ends(here) && !is_partner(bracket, here) {
        return SyntaxHint::NotClosed(at);
    }
    complete_hint(before, at, here, text)
}

/// Returns the hint after these symbols, by the open brackets.
fn open_hint(before: &[Symbol], last: Symbol, here: Symbol, text: &[u8]) -> SyntaxHint
    requires { last ≡ slice_index_or before.now (length before.now - 1) End }
    ensures { IsSyntaxHint before.now here text.now result }
{
    match open_bracket(before) {
        Some(at) => bracket_hint(before, at, here, text),
        None => {
            if last.is(Symbol::RightBrace) {
                SyntaxHint::ModuleEnded
            } else {
                SyntaxHint::Unexpected
            }
        }
    }
}

/// Returns a fact about a small name where a capital one is expected.
fn name_hint(before: &[Symbol], last: Symbol, here: Symbol, text: &[u8]) -> Option<SyntaxHint>
    requires { last ≡ slice_index_or before.now (length before.now - 1) End }
    ensures { IfSome result (IsSyntaxHint before.now here text.now) }
{
    if takes_capital(last) && here.is(Symbol::Var) {
        return Some(SyntaxHint::SmallName);
    }
    if takes_constructor(last) && here.is(Symbol::Var) && constructors_begin(before) {
        return Some(SyntaxHint::SmallName);
    }
    None
}

/// Returns a fact about an argument of a type variable.
fn variable_hint(before: &[Symbol], last: Symbol, here: Symbol, text: &[u8]) -> Option<SyntaxHint>
    requires { last ≡ slice_index_or before.now (length before.now - 1) End }
    ensures { IfSome result (IsSyntaxHint before.now here text.now) }
{
    if last.is(Symbol::Var) && here.begins_atype() && right_type_begins(before) {
        return Some(SyntaxHint::AppliedVariable);
    }
    None
}

/// Returns a fact about a brace.
fn brace_hint(before: &[Symbol], last: Symbol, here: Symbol, text: &[u8]) -> Option<SyntaxHint>
    requires { last ≡ slice_index_or before.now (length before.now - 1) End }
    ensures { IfSome result (IsSyntaxHint before.now here text.now) }
{
    if last.is(Symbol::Con) && here.is(Symbol::LeftBrace) {
        return Some(SyntaxHint::Record);
    }
    if ends_operand(last) && here.is(Symbol::LeftBrace) {
        if let Some(at) = without_then(before) {
            return Some(SyntaxHint::NoThen(at));
        }
        return Some(SyntaxHint::Update);
    }
    if here.is(Symbol::RightBrace) && ends_with_of(before) {
        return Some(SyntaxHint::NoAlternative);
    }
    None
}

/// Returns a fact about an operator or a word after patterns, a guard or a mark.
fn mark_hint(before: &[Symbol], last: Symbol, here: Symbol, text: &[u8]) -> Option<SyntaxHint>
    requires { last ≡ slice_index_or before.now (length before.now - 1) End }
    ensures { IfSome result (IsSyntaxHint before.now here text.now) }
{
    if last.is(Symbol::Semicolon) && here.is(Symbol::Where) {
        return Some(SyntaxHint::WhereAfterSemicolon);
    }
    if last.is(Symbol::Equals) && here.is(Symbol::Bar) && patterns_end(before) {
        return Some(SyntaxHint::GuardAfterEquals);
    }
    if ends_pattern(last) && here.is(Symbol::OfType) && patterns_begin(before) {
        return Some(SyntaxHint::TypedPattern);
    }
    if ends_pattern(last) && here.is(Symbol::Colon) && patterns_begin(before) {
        return Some(SyntaxHint::ConsPattern);
    }
    if here.is(Symbol::At) {
        return Some(SyntaxHint::AtSign);
    }
    None
}

/// Returns a fact about what is in the innermost open bracket.
fn inner_hint(before: &[Symbol], last: Symbol, here: Symbol, text: &[u8]) -> Option<SyntaxHint>
    requires { last ≡ slice_index_or before.now (length before.now - 1) End }
    ensures { IfSome result (IsSyntaxHint before.now here text.now) }
{
    match open_bracket(before) {
        Some(at) => {
            match declaration_hint(before, at, here, text) {
                Some(hint) => return Some(hint),
                None => {}
            }
            argument_hint(before, at, last, here, text)
        }
        None => None,
    }
}

/// Returns a fact about a token that would be right without the mark before it, or earlier in the module.
fn order_hint(before: &[Symbol], last: Symbol, here: Symbol, text: &[u8]) -> Option<SyntaxHint>
    requires { last ≡ slice_index_or before.now (length before.now - 1) End }
    ensures { IfSome result (IsSyntaxHint before.now here text.now) }
{
    if is_capital(last) && text == b"qualified".as_slice() && ends_with_import(before) {
        return Some(SyntaxHint::LateQualified);
    }
    if last.is(Symbol::Semicolon) && here.is(Symbol::Bar) {
        return Some(SyntaxHint::GuardAfterSemicolon);
    }
    if last.is(Symbol::Semicolon) && here.is(Symbol::Import) && has_declaration(before) {
        return Some(SyntaxHint::LateImport);
    }
    if last.is(Symbol::Comma) && closes_round_or_square(here) {
        return Some(SyntaxHint::ExtraComma);
    }
    None
}

/// Returns a fact about the token and the declaration, the pattern or the mark before it, if there is one.
fn near_hint(before: &[Symbol], last: Symbol, here: Symbol, text: &[u8]) -> Option<SyntaxHint>
    requires { last ≡ slice_index_or before.now (length before.now - 1) End }
    ensures { IfSome result (IsSyntaxHint before.now here text.now) }
{
    match order_hint(before, last, here, text) {
        Some(hint) => return Some(hint),
        None => {}
    }
    match name_hint(before, last, here, text) {
        Some(hint) => return Some(hint),
        None => {}
    }
    match closed_hint(before, last, here, text) {
        Some(hint) => return Some(hint),
        None => {}
    }
    match expression_hint(before, last, here, text) {
        Some(hint) => return Some(hint),
        None => {}
    }
    match inner_hint(before, last, here, text) {
        Some(hint) => return Some(hint),
        None => {}
    }
    match variable_hint(before, last, here, text) {
        Some(hint) => return Some(hint),
        None => {}
    }
    match brace_hint(before, last, here, text) {
        Some(hint) => return Some(hint),
        None => {}
    }
    mark_hint(before, last, here, text)
}

/// Returns a fact about the first token with which no source begins. `before` has the symbols of the tokens before it, and `here` is its
/// symbol. The hint is never a change that repairs it.
pub fn syntax_hint(before: &[Symbol], here: Symbol, text: &[u8]) -> SyntaxHint
    ensures { IsSyntaxHint before.now here text.now result }
{
    if before.is_empty() {
        return SyntaxHint::NoHeader;
    }
    let last = before[before.len() - 1];
    if wants_brace(last) && !here.is(Symbol::LeftBrace) {
        return SyntaxHint::NoBrace;
    }
    if let Some(feature) = feature_of(text) {
        if is_place_of(feature, before) {
            return SyntaxHint::LeftOut(feature);
        }
    }
    match near_hint(before, last, here, text) {
        Some(hint) => return hint,
        None => {}
    }
    if last.is(Symbol::Integer) && here.is(Symbol::Comma) {
        return SyntaxHint::NumberComma;
    }
    open_hint(before, last, here, text)
}

impl SyntaxHint {
    /// Returns whether the hint is enough to say what to do, so that no change of one token needs to be searched.
    pub fn is_enough(self) -> bool {
        !matches!(
            self,
            SyntaxHint::WherePart(_)
                | SyntaxHint::NoElse(_)
                | SyntaxHint::NotClosed(_)
                | SyntaxHint::InPattern(_)
                | SyntaxHint::Record
                | SyntaxHint::Update
                | SyntaxHint::Unexpected
                | SyntaxHint::AppliedVariable
                | SyntaxHint::AppliedName(_)
                | SyntaxHint::TypedPattern
                | SyntaxHint::ConsPattern
                | SyntaxHint::ConstructorComma(_)
                | SyntaxHint::NumberComma
                | SyntaxHint::WhereAfterSemicolon
                | SyntaxHint::NoThen(_)
                | SyntaxHint::NewtypeArguments(_)
                | SyntaxHint::Hole
                | SyntaxHint::EqualsInCondition(_)
                | SyntaxHint::NoIn(_)
                | SyntaxHint::BraceGroup
        )
    }
}
