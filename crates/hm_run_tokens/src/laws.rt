//! Laws of the definitions. Each law is a function with an empty body, and its contract is the law.
ghost use Rattle.std.specs.Prelude.{◌≡◌, ◌≤◌, ◌++◌, List, ℕ, length};
ghost use Rattle.hm_lex.specs.Faults.{AreTokensOf, max_source_len};
ghost use Rattle.hm_lex.specs.declared.token.Token.{Token};
ghost use Rattle.hm_run_tokens.specs.Parts.{AreTokensAfter, EndsLine, IsClosed};
ghost use Rattle.hm_run_tokens.specs.Worked.{PartsRow};

/// If lines close their brackets, then their tokens and those of the text after them are the tokens of both.
pub fn parts_join()
    ensures { (front later : List ℕ) (tokens more : List Token) → EndsLine front → IsClosed front → length (front ++ later) ≤ max_source_len
        → AreTokensOf front tokens → AreTokensAfter front later more → AreTokensOf (front ++ later) (tokens ++ more) }
{}

/// Worked examples of the definitions.
pub fn worked_parts()
    ensures { PartsRow }
{}
