//! Hints of lexical and syntax faults, as tables.

use hm_messages_hints::{
    Feature, LexemeHint, SyntaxHint, feature_of, lexeme_hint, operator_in, syntax_hint,
};
use hm_messages_outline::open_bracket;
use hm_parse_grammar::Symbol;

#[test]
fn innermost_bracket(rt: HostRuntime) {
    let symbols = [
        Symbol::LeftBrace,
        Symbol::Open,
        Symbol::Close,
        Symbol::OpenSquare,
        Symbol::Var,
    ];
    assert!(rt; open_bracket(&symbols) == Some(3));
    assert!(rt; open_bracket(&symbols[..3]) == Some(0));
    assert!(rt; open_bracket(&symbols[..0]) == None);
}

/// `module M where { x = [x`.
const HEAD: [Symbol; 8] = [
    Symbol::Module,
    Symbol::Con,
    Symbol::Where,
    Symbol::LeftBrace,
    Symbol::Var,
    Symbol::Equals,
    Symbol::OpenSquare,
    Symbol::Var,
];

#[test]
fn hints_of_syntax(rt: HostRuntime) {
    assert!(rt; syntax_hint(&HEAD[..0], Symbol::Var, b"x") == SyntaxHint::NoHeader);
    assert!(rt; syntax_hint(&HEAD[..3], Symbol::Var, b"x") == SyntaxHint::NoBrace);
    assert!(rt; syntax_hint(&HEAD[..1], Symbol::Var, b"m") == SyntaxHint::SmallName);
    assert!(rt; syntax_hint(&HEAD, Symbol::Bar, b"|") == SyntaxHint::Comprehension(6));
    assert!(rt; syntax_hint(&HEAD, Symbol::Dots, b"..") == SyntaxHint::Range(6));
    assert!(rt; syntax_hint(&HEAD, Symbol::Semicolon, b";") == SyntaxHint::NotClosed(6));
    assert!(rt; syntax_hint(&HEAD, Symbol::Other, b"do") == SyntaxHint::LeftOut(Feature::Do));
    assert!(rt; syntax_hint(&HEAD, Symbol::Equals, b"=") == SyntaxHint::Unexpected);
}

/// `module M where { x = if y then 1`.
const OPEN_IF: [Symbol; 10] = [
    Symbol::Module,
    Symbol::Con,
    Symbol::Where,
    Symbol::LeftBrace,
    Symbol::Var,
    Symbol::Equals,
    Symbol::If,
    Symbol::Var,
    Symbol::Then,
    Symbol::Integer,
];

/// `module M where { x = case y of { z`.
const OPEN_CASE: [Symbol; 11] = [
    Symbol::Module,
    Symbol::Con,
    Symbol::Where,
    Symbol::LeftBrace,
    Symbol::Var,
    Symbol::Equals,
    Symbol::Case,
    Symbol::Var,
    Symbol::Of,
    Symbol::LeftBrace,
    Symbol::Var,
];

/// `module M where { data T = C a`.
const DATA: [Symbol; 9] = [
    Symbol::Module,
    Symbol::Con,
    Symbol::Where,
    Symbol::LeftBrace,
    Symbol::Data,
    Symbol::Con,
    Symbol::Equals,
    Symbol::Con,
    Symbol::Var,
];

#[test]
fn hints_by_contexts(rt: HostRuntime) {
    assert!(rt; syntax_hint(&OPEN_IF, Symbol::RightBrace, b"}") == SyntaxHint::NoElse(6));
    assert!(rt; syntax_hint(&HEAD, Symbol::Where, b"where") == SyntaxHint::WherePart(6));
    assert!(rt; syntax_hint(&OPEN_CASE, Symbol::Var, b"w") == SyntaxHint::InPattern(9));
    assert!(rt; syntax_hint(&DATA, Symbol::Open, b"(") == SyntaxHint::AppliedVariable);
    assert!(rt; syntax_hint(&DATA[..7], Symbol::Var, b"c") == SyntaxHint::SmallName);
    assert!(rt; syntax_hint(&HEAD[..5], Symbol::Var, b"c") == SyntaxHint::Unexpected);
}

#[test]
fn hints_of_lexemes(rt: HostRuntime) {
    assert!(rt; lexeme_hint(b"`div` y", false) == LexemeHint::Backquote);
    assert!(rt; lexeme_hint(b"--| doc", false) == LexemeHint::Dashes);
    assert!(rt; lexeme_hint(b"3.14", false) == LexemeHint::Fraction);
    assert!(rt; lexeme_hint(b"+ 1", false) == LexemeHint::Operator);
    assert!(rt; operator_in(b"++ ys", LexemeHint::Operator) == "++");
    assert!(rt; lexeme_hint(b"\"ab ;", false) == LexemeHint::OpenString);
    assert!(rt; lexeme_hint(b"\"a\\q\"", false) == LexemeHint::StringItem);
    assert!(rt; lexeme_hint(b"\xEF\xBB\xBFmodule", true) == LexemeHint::ByteOrderMark);
    assert!(rt; feature_of(b"class") == Some(Feature::Class));
    assert!(rt; feature_of(b"word") == None);
}
