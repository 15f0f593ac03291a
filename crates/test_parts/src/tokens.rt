//! Texts and their tokens.
use hm_lex::{Kind, Place, Token, lex};
use std::alloc::Global;
use std::test::Fail;

/// The kind, the start and the end of a token.
type Cut = (Kind, u32, u32);

/// Returns whether the tokens have these kinds, starts and ends.
fn are_cut(tokens: &[Token], wanted: &[Cut]) -> bool {
    if tokens.len() != wanted.len() {
        return false;
    }
    for (token, (kind, start, end)) in tokens.iter().zip(wanted.iter()) {
        if token.kind != *kind || token.start != *start || token.end != *end {
            return false;
        }
    }
    true
}

/// Returns whether the tokens of a text have these kinds, starts and ends.
fn is_cut(alloc: Global, text: &[u8], wanted: &[Cut]) -> bool {
    lex(alloc, text).is_ok_and(|tokens| are_cut(&tokens, wanted))
}

/// Texts with their tokens.
const CUTS: [(&[u8], &[Cut]); 9] = [
    (b"{- -- -}", &[]),
    (b"{-{--}-} x", &[(Kind::VarId, 9, 10)]),
    (b"--- |\nx", &[(Kind::VarId, 6, 7)]),
    (b"A.B.x", &[(Kind::QVarId, 0, 5)]),
    (b"A..", &[(Kind::ConId, 0, 1), (Kind::Op, 1, 3)]),
    (
        b"T(..)",
        &[
            (Kind::ConId, 0, 1),
            (Kind::Special, 1, 2),
            (Kind::Op, 2, 4),
            (Kind::Special, 4, 5),
        ],
    ),
    (
        b"0xg 0o18",
        &[
            (Kind::Integer, 0, 1),
            (Kind::VarId, 1, 3),
            (Kind::Integer, 4, 7),
            (Kind::Integer, 7, 8),
        ],
    ),
    (
        b"1e 0XaF",
        &[
            (Kind::Integer, 0, 1),
            (Kind::VarId, 1, 2),
            (Kind::Integer, 3, 7),
        ],
    ),
    (
        b"_ _a where' let",
        &[
            (Kind::Word, 0, 1),
            (Kind::VarId, 2, 4),
            (Kind::VarId, 5, 11),
            (Kind::Word, 12, 15),
        ],
    ),
];

#[test]
fn cuts(rt: HostRuntime) -> Result<(), Fail> {
    for (text, wanted) in &CUTS {
        assert!(rt; is_cut(rt.alloc(), text, wanted));
    }
    Ok(())
}

/// Returns whether a text is one lexeme of this kind.
fn is_one_lexeme(alloc: Global, text: &[u8], kind: Kind) -> bool {
    let Ok(tokens) = lex(alloc, text) else {
        return false;
    };
    let Ok(end) = u32::try_from(text.len()) else {
        return false;
    };
    tokens.len() == 1
        && tokens[0]
            == Token {
                kind,
                start: 0,
                end,
                place: Place { line: 1, column: 1 },
            }
}

/// Quoted texts, each of which is one lexeme.
const QUOTES: [(Kind, &[u8]); 30] = [
    (Kind::Character, b"'a'"),
    (Kind::Character, b"'\"'"),
    (Kind::Character, b"' '"),
    (Kind::Character, b"'\x7f'"),
    (Kind::Character, b"'\xc3\xbc'"),
    (Kind::Character, b"'\xf0\x9f\x98\x80'"),
    (Kind::Character, b"'\\n'"),
    (Kind::Character, b"'\\''"),
    (Kind::Character, b"'\\\"'"),
    (Kind::Character, b"'\\\\'"),
    (Kind::Character, b"'\\0'"),
    (Kind::Character, b"'\\1114111'"),
    (Kind::Character, b"'\\00001114111'"),
    (Kind::Character, b"'\\x10fFfF'"),
    (Kind::Character, b"'\\o4177777'"),
    (Kind::Character, b"'\\xd800'"),
    (Kind::Str, b"\"\""),
    (Kind::Str, b"\"a\""),
    (Kind::Str, b"\"'\""),
    (Kind::Str, b"\"a\\ \\b\\&c\""),
    (Kind::Str, b"\"\\\n \t\\\""),
    (Kind::Str, b"\"\\\"\""),
    (Kind::Str, b"\"\\\\\""),
    (Kind::Str, b"\"\\&\\&\""),
    (Kind::Str, b"\"\\a\\b\\f\\n\\r\\t\\v\\'\""),
    (Kind::Str, b"\"\\x41\\&1\\o101g\\65x\""),
    (Kind::Str, b"\"\\1114111\\x10FFFFg\""),
    (Kind::Str, b"\"\xc3\xa9\xe2\x82\xac\xf0\x9f\x98\x80\""),
    (Kind::Str, b"\"{- -- -}\""),
    (Kind::Str, b"\"\\o1778\""),
];

#[test]
fn quotes(rt: HostRuntime) -> Result<(), Fail> {
    for (kind, text) in &QUOTES {
        assert!(rt; is_one_lexeme(rt.alloc(), text, *kind));
    }
    Ok(())
}
