//! Joins the tokens of two parts of a source.
ghost use Rattle.std.specs.Prelude.{◌≡◌, ◌++◌, ◌≤◌, ℕ, List, IfSome, length, true};
ghost use Rattle.hm_lex.specs.Faults.{max_source_len};
ghost use Rattle.hm_run_tokens.specs.Parts.{AreTokensAfter, EndsLine, IsClosed};

use hm_lex::Token;
use hm_run_tokens::PartTokens;

/// Returns the tokens of a part and of the rest of the source, if the part closes its brackets.
#[tactic(auto, using(hm_run_tokens::proofs::Joins::parts_join_after))]
pub(crate) fn joined(front: Option<PartTokens>, later: Option<Vec<Token>>) -> Option<Vec<Token>>
    ensures { IfSome result (λ tokens. (before text rest : List ℕ) → EndsLine text → length (text ++ rest) ≤ max_source_len
        → IfSome front (λ found. AreTokensAfter before text found.tokens.items × (found.is_closed ≡ true → IsClosed text))
        → IfSome later (λ more. AreTokensAfter (before ++ text) rest more.items) → AreTokensAfter before (text ++ rest) tokens.items) }
{
    let Some(
        PartTokens {
            mut tokens,
            is_closed,
        },
    ) = front
    else {
        return None;
    };
    let Some(mut more) = later else {
        return None;
    };
    if !is_closed {
        return None;
    }
    match tokens.append(&mut more) {
        Ok(()) => Some(tokens),
        Err(_) => None,
    }
}
