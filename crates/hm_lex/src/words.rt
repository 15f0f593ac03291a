//! Reserved words and operators, grouped by first byte, and brackets.
ghost use Rattle.std.specs.Prelude.{◌≡◌, ℕ, List, [], ◌∷◌};
ghost use Rattle.std.specs.List.{list_any};
ghost use Rattle.std.specs.Str.{bytes_eq};
ghost use Rattle.hm_lex.specs.Cut.{is_opening, is_closing};
ghost use Rattle.hm_lex.specs.Names.{is_reserved};
ghost use Rattle.hm_lex.specs.Symbols.{is_operator};

const C_WORDS: [&[u8]; 2] = [b"case", b"class"];

const D_WORDS: [&[u8]; 4] = [b"data", b"default", b"deriving", b"do"];

const E_WORDS: [&[u8]; 1] = [b"else"];

const I_WORDS: [&[u8]; 7] = [
    b"if",
    b"import",
    b"in",
    b"infix",
    b"infixl",
    b"infixr",
    b"instance",
];

const L_WORDS: [&[u8]; 1] = [b"let"];

const M_WORDS: [&[u8]; 1] = [b"module"];

const N_WORDS: [&[u8]; 1] = [b"newtype"];

const O_WORDS: [&[u8]; 1] = [b"of"];

const T_WORDS: [&[u8]; 2] = [b"then", b"type"];

const W_WORDS: [&[u8]; 1] = [b"where"];

const UNDERSCORE: [&[u8]; 1] = [b"_"];

/// Returns whether the text is one of the words.
fn is_one_of(words: &[&[u8]], text: &[u8]) -> bool
    ensures { result ≡ list_any (λ word. bytes_eq word.now text.now) words.now }
{
    words.iter().any(|word| *word == text)
}

/// Returns the reserved words that begin with the byte.
#[tactic(auto, unfolding(crate::specs::Names::is_reserved))]
fn reserved_from(first: u8) -> &'static [&'static [u8]]
    ensures { (rest : List ℕ) → list_any (λ word. bytes_eq word.now (first ∷ rest)) result.now ≡ is_reserved (first ∷ rest) }
{
    match first {
        b'c' => &C_WORDS,
        b'd' => &D_WORDS,
        b'e' => &E_WORDS,
        b'i' => &I_WORDS,
        b'l' => &L_WORDS,
        b'm' => &M_WORDS,
        b'n' => &N_WORDS,
        b'o' => &O_WORDS,
        b't' => &T_WORDS,
        b'w' => &W_WORDS,
        b'_' => &UNDERSCORE,
        _ => &[],
    }
}

pub(crate) fn is_reserved(text: &[u8]) -> bool
    ensures { result ≡ is_reserved text.now }
{
    !text.is_empty() && is_one_of(reserved_from(text[0]), text)
}

const COLON_OPERATORS: [&[u8]; 2] = [b":", b"::"];

const EQUALS_OPERATORS: [&[u8]; 2] = [b"=", b"=>"];

const DOT_OPERATORS: [&[u8]; 1] = [b".."];

const LESS_OPERATORS: [&[u8]; 1] = [b"<-"];

const DASH_OPERATORS: [&[u8]; 1] = [b"->"];

const BACKSLASH: [&[u8]; 1] = [b"\\"];

const BAR: [&[u8]; 1] = [b"|"];

const AT: [&[u8]; 1] = [b"@"];

const TILDE: [&[u8]; 1] = [b"~"];

/// Returns the reserved operators that begin with the byte.
#[tactic(auto, unfolding(crate::specs::Symbols::is_operator))]
fn operators_from(first: u8) -> &'static [&'static [u8]]
    ensures { (rest : List ℕ) → list_any (λ word. bytes_eq word.now (first ∷ rest)) result.now ≡ is_operator (first ∷ rest) }
{
    match first {
        b':' => &COLON_OPERATORS,
        b'=' => &EQUALS_OPERATORS,
        b'.' => &DOT_OPERATORS,
        b'<' => &LESS_OPERATORS,
        b'-' => &DASH_OPERATORS,
        b'\\' => &BACKSLASH,
        b'|' => &BAR,
        b'@' => &AT,
        b'~' => &TILDE,
        _ => &[],
    }
}

pub(crate) fn is_operator(text: &[u8]) -> bool
    ensures { result ≡ is_operator text.now }
{
    !text.is_empty() && is_one_of(operators_from(text[0]), text)
}

#[tactic(auto, unfolding(crate::specs::Cut::is_opening))]
fn opens(byte: u8) -> bool
    ensures { result ≡ is_opening (byte ∷ []) }
{
    matches!(byte, b'(' | b'[' | b'{')
}

#[tactic(auto, unfolding(crate::specs::Cut::is_closing))]
fn closes(byte: u8) -> bool
    ensures { result ≡ is_closing (byte ∷ []) }
{
    matches!(byte, b')' | b']' | b'}')
}

pub(crate) fn is_opening(text: &[u8]) -> bool
    ensures { result ≡ is_opening text.now }
{
    text.len() == 1 && opens(text[0])
}

pub(crate) fn is_closing(text: &[u8]) -> bool
    ensures { result ≡ is_closing text.now }
{
    text.len() == 1 && closes(text[0])
}
