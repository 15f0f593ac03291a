//! Laws of the definitions. Each law is a function with an empty body, and its contract is the law.
ghost use Rattle.std.specs.Prelude.{◌≡◌, ◌≢◌, All, List, ℕ};
ghost use Rattle.hm_lex.specs.Cut.{Piece, IsCut};
ghost use Rattle.hm_lex.specs.Examples.{Worked};
ghost use Rattle.hm_lex.specs.Faults.{AreTokensOf, IsFirstFault, IsRefusal};
ghost use Rattle.hm_lex.specs.Shapes.{HasShape, Shape};
ghost use Rattle.hm_lex.specs.Texts.{LiesIn};
ghost use Rattle.hm_lex.specs.declared.token.LexFault.{LexFault};
ghost use Rattle.hm_lex.specs.declared.token.LexFault.TheVariants.{Memory};
ghost use Rattle.hm_lex.specs.declared.token.Token.{Token};

/// A source has at most one cut.
pub fn one_cut()
    ensures { (ps qs : List Piece) (source : List ℕ) → IsCut ps source → IsCut qs source → ps ≡ qs }
{}

/// A source has tokens or a fault, and not both.
pub fn one_answer()
    ensures { (source : List ℕ) (tokens : List Token) (fault : LexFault) → AreTokensOf source tokens → IsRefusal source fault → fault ≡ Memory }
{}

/// A source has at most one first fault, and is refused for one reason, except for running out of memory.
pub fn one_fault()
    ensures first { (source : List ℕ) (fault other : LexFault) → IsFirstFault source fault → IsFirstFault source other → fault ≡ other }
    ensures refusal { (source : List ℕ) (fault other : LexFault) → IsRefusal source fault → IsRefusal source other → fault ≢ Memory → other ≢ Memory
        → fault ≡ other }
{}

/// The tokens of a source lie in it, and their bytes are text.
pub fn token_texts()
    ensures { (source : List ℕ) (tokens : List Token) → AreTokensOf source tokens → All (LiesIn source) tokens }
{}

/// A text has at most one shape: no lexeme has two kinds, and none is also a comment or malformed.
pub fn one_shape()
    ensures { (shape other : Shape) (text : List ℕ) → HasShape shape text → HasShape other text → shape ≡ other }
{}

/// Worked examples of the definitions.
pub fn examples()
    ensures { Worked }
{}
