//! Laws of the grammar. Each law is a function with an empty body, and its contract is the law.
ghost use Rattle.std.specs.Prelude.{◌≡◌, List, ℕ};
ghost use Rattle.hm_lex.specs.declared.token.Token.{Token};
ghost use Rattle.hm_parse_grammar.specs.Grammar.Modules.{Spells};
ghost use Rattle.hm_syntax.specs.declared.ast.Module.{Module};

/// The tokens of a source spell at most one list of modules, so any two parses of it have equal trees.
#[tactic(auto, using(crate::proofs::Whole::spelled_once))]
pub fn one_reading()
    ensures { (source : List ℕ) (tokens : List Token) (modules others : List Module) →
        Spells modules source tokens → Spells others source tokens → modules ≡ others }
{}
