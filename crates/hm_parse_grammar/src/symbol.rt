//! Symbols: tokens as the grammar sees them.
ghost use Rattle.std.specs.Prelude.{◌≡◌, ℕ, List, [], ◌∷◌, map};
ghost use Rattle.hm_parse_grammar.specs.Reading.Types.{begins_atype};
ghost use Rattle.hm_parse_grammar.specs.Reading.Constructors.{is_mark};
ghost use Rattle.hm_parse_grammar.specs.Reading.Patterns.{begins_apat};
ghost use Rattle.hm_parse_grammar.specs.Reading.Expressions.{begins_aexp, begins_open, begins_signature, continues_pattern};
ghost use Rattle.hm_parse_grammar.specs.Symbols.{same, find_symbol, symbol_of, words, operators, specials, is_qvar, is_qcon};

use hm_lex::Kind;

#[derive(Clone, Copy, PartialEq, Eq)]
pub enum Symbol {
    Case,
    Data,
    Else,
    If,
    Import,
    In,
    Let,
    Module,
    Newtype,
    Of,
    Then,
    /// `type`
    TypeWord,
    Where,
    Wild,
    Dots,
    Colon,
    OfType,
    Equals,
    Backslash,
    Bar,
    Arrow,
    At,
    Tilde,
    Open,
    Close,
    OpenSquare,
    CloseSquare,
    LeftBrace,
    RightBrace,
    Comma,
    Semicolon,
    Var,
    Con,
    QVar,
    QCon,
    Integer,
    Character,
    Text,
    Other,
    End,
}

impl Symbol {
    pub fn is(self, other: Symbol) -> bool
        ensures { result ≡ same self other }
    {
        self == other
    }

    pub fn begins_atype(self) -> bool
        ensures { result ≡ begins_atype self }
    {
        match self {
            Symbol::Var | Symbol::Con | Symbol::QCon | Symbol::Open | Symbol::OpenSquare => true,
            _ => false,
        }
    }

    pub fn begins_aexp(self) -> bool
        ensures { result ≡ begins_aexp self }
    {
        match self {
            Symbol::Var
            | Symbol::QVar
            | Symbol::Con
            | Symbol::QCon
            | Symbol::Integer
            | Symbol::Character
            | Symbol::Text
            | Symbol::Open
            | Symbol::OpenSquare => true,
            _ => false,
        }
    }

    /// Returns whether this begins an expression that extends as far right as it can.
    pub fn begins_open(self) -> bool
        ensures { result ≡ begins_open self }
    {
        match self {
            Symbol::Backslash | Symbol::Let | Symbol::If => true,
            _ => false,
        }
    }

    /// Returns whether this comes after the first variable of a signature.
    pub fn begins_signature(self) -> bool
        ensures { result ≡ begins_signature self }
    {
        match self {
            Symbol::Comma | Symbol::OfType => true,
            _ => false,
        }
    }

    /// Returns whether a declaration is a pattern binding if this comes after its first variable.
    pub fn continues_pattern(self) -> bool
        ensures { result ≡ continues_pattern self }
    {
        match self {
            Symbol::At | Symbol::Colon => true,
            _ => false,
        }
    }

    pub fn begins_apat(self) -> bool
        ensures { result ≡ begins_apat self }
    {
        match self {
            Symbol::Var
            | Symbol::Con
            | Symbol::QCon
            | Symbol::Integer
            | Symbol::Character
            | Symbol::Text
            | Symbol::Wild
            | Symbol::Open
            | Symbol::OpenSquare
            | Symbol::Tilde => true,
            _ => false,
        }
    }

    /// Returns whether a special constructor begins if this comes after `(`.
    pub fn is_mark(self) -> bool
        ensures { result ≡ is_mark self }
    {
        match self {
            Symbol::Close | Symbol::Comma | Symbol::Colon => true,
            _ => false,
        }
    }

    pub fn is_qcon(self) -> bool
        ensures { result ≡ is_qcon self }
    {
        match self {
            Symbol::Con | Symbol::QCon => true,
            _ => false,
        }
    }
}

const C_WORDS: [(&[u8], Symbol); 1] = [(b"case", Symbol::Case)];

const D_WORDS: [(&[u8], Symbol); 1] = [(b"data", Symbol::Data)];

const E_WORDS: [(&[u8], Symbol); 1] = [(b"else", Symbol::Else)];

const I_WORDS: [(&[u8], Symbol); 3] = [
    (b"if", Symbol::If),
    (b"import", Symbol::Import),
    (b"in", Symbol::In),
];

const L_WORDS: [(&[u8], Symbol); 1] = [(b"let", Symbol::Let)];

const M_WORDS: [(&[u8], Symbol); 1] = [(b"module", Symbol::Module)];

const N_WORDS: [(&[u8], Symbol); 1] = [(b"newtype", Symbol::Newtype)];

const O_WORDS: [(&[u8], Symbol); 1] = [(b"of", Symbol::Of)];

const T_WORDS: [(&[u8], Symbol); 2] = [(b"then", Symbol::Then), (b"type", Symbol::TypeWord)];

const W_WORDS: [(&[u8], Symbol); 1] = [(b"where", Symbol::Where)];

const UNDERSCORE: [(&[u8], Symbol); 1] = [(b"_", Symbol::Wild)];

/// Returns the reserved words of the grammar that begin with the byte.
fn words_from(first: u8) -> &'static [(&'static [u8], Symbol)]
    ensures { (rest : List ℕ) → find_symbol (first ∷ rest) (map (λ entry. (entry.0.now, entry.1)) result.now) ≡ find_symbol (first ∷ rest) words }
{
    match first {
        b'c' => &C_WORDS,
        b'd' => &D_WORDS,
        b'e' => &E_WORDS,
        b'i' => &I_WORDS,
        b'l' => &L_WORDS,
        b'm' => &M_WORDS,
        b'n' => &N_WORDS,
        b'o' => &O_WORDS,
        b't' => &T_WORDS,
        b'w' => &W_WORDS,
        b'_' => &UNDERSCORE,
        _ => &[],
    }
}

const OPERATORS: [(&[u8], Symbol); 9] = [
    (b"..", Symbol::Dots),
    (b":", Symbol::Colon),
    (b"::", Symbol::OfType),
    (b"=", Symbol::Equals),
    (b"\\", Symbol::Backslash),
    (b"|", Symbol::Bar),
    (b"->", Symbol::Arrow),
    (b"@", Symbol::At),
    (b"~", Symbol::Tilde),
];

/// Returns the operator of one byte.
fn short_operator(byte: u8) -> Symbol
    ensures { result ≡ find_symbol (byte ∷ []) operators }
{
    match byte {
        b':' => Symbol::Colon,
        b'=' => Symbol::Equals,
        b'\\' => Symbol::Backslash,
        b'|' => Symbol::Bar,
        b'@' => Symbol::At,
        b'~' => Symbol::Tilde,
        _ => Symbol::Other,
    }
}

/// Returns the symbol of a special character.
fn special_byte(byte: u8) -> Symbol
    ensures { result ≡ find_symbol (byte ∷ []) specials }
{
    match byte {
        b'(' => Symbol::Open,
        b')' => Symbol::Close,
        b'[' => Symbol::OpenSquare,
        b']' => Symbol::CloseSquare,
        b'{' => Symbol::LeftBrace,
        b'}' => Symbol::RightBrace,
        b',' => Symbol::Comma,
        b';' => Symbol::Semicolon,
        _ => Symbol::Other,
    }
}

/// Returns the symbol of a text in a table.
fn find(table: &[(&[u8], Symbol)], text: &[u8]) -> Symbol
    ensures { result ≡ find_symbol text.now (map (λ entry. (entry.0.now, entry.1)) table.now) }
{
    for (word, symbol) in table {
        if *word == text {
            return *symbol;
        }
    }
    Symbol::Other
}

fn word(text: &[u8]) -> Symbol
    ensures { result ≡ find_symbol text.now words }
{
    if text.is_empty() {
        return Symbol::Other;
    }
    find(words_from(text[0]), text)
}

fn operator(text: &[u8]) -> Symbol
    ensures { result ≡ find_symbol text.now operators }
{
    if text.len() == 1 {
        return short_operator(text[0]);
    }
    find(&OPERATORS, text)
}

fn special(text: &[u8]) -> Symbol
    ensures { result ≡ find_symbol text.now specials }
{
    if text.len() == 1 {
        return special_byte(text[0]);
    }
    Symbol::Other
}

/// Returns the symbol of a token with this kind and text.
pub fn symbol_of(kind: Kind, text: &[u8]) -> Symbol
    ensures { result ≡ symbol_of kind text.now }
{
    match kind {
        Kind::Word => word(text),
        Kind::Op => operator(text),
        Kind::Special => special(text),
        Kind::VarId => Symbol::Var,
        Kind::ConId => Symbol::Con,
        Kind::QVarId => Symbol::QVar,
        Kind::QConId => Symbol::QCon,
        Kind::Integer => Symbol::Integer,
        Kind::Character => Symbol::Character,
        Kind::Str => Symbol::Text,
    }
}
