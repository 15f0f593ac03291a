//! Runs of the tokens of a source. Each should spell some of its modules.
ghost use Rattle.std.specs.Prelude.{◌≡◌, ◌++◌, ◌<◌, ◌≤◌, ℕ, List, All, IfOk, IfSome, length};
ghost use Rattle.hm_lex.specs.Texts.{LiesIn};
ghost use Rattle.hm_lex.specs.declared.token.Token.{Token as SourceToken};
ghost use Rattle.hm_parse_grammar.specs.Grammar.Modules.{Spells};

use hm_lex::Token;
use hm_parse_grammar::{Symbol, symbol_of, text_of};
use hm_syntax::Module;
use std::alloc::AllocError;
use std::thread::Promise;

/// Consecutive tokens of a source.
#[derive(Clone, Copy)]
pub(crate) struct Run<'a> {
    pub text: &'a [u8],
    pub tokens: &'a [Token],
    /// The bytes of stack for a thread that parses them.
    pub stack: usize,
}

/// What a thread promises about the modules of a run.
impl<'a> Promise<Result<Option<Vec<Module>>, AllocError>> for Run<'a> {
    ghost use Rattle.std.specs.Prelude.{IfOk, IfSome};
    ghost use Rattle.hm_parse_grammar.specs.Grammar.Modules.{Spells};

    ghost kept_by = { λ p r. IfOk r (λ found. IfSome found (λ modules. Spells modules.items p.text.now p.tokens.now)) };
}

/// Returns whether a module may begin at a token: it is `module`, and a `}` is before it. True wherever a module has ended.
fn may_begin(text: &[u8], before: &Token, token: &Token) -> bool
    requires before { LiesIn text.now before.now }
    requires token { LiesIn text.now token.now }
{
    symbol_of(before.kind, text_of(text, before)).is(Symbol::RightBrace)
        && symbol_of(token.kind, text_of(text, token)).is(Symbol::Module)
}

// Why: docs/DECISIONS.md, "A lone source".
/// Returns the end of a run of at least `least` tokens: before the next module, or after the last token.
pub(crate) fn run_end(run: Run<'_>, least: usize) -> usize
    requires { All (LiesIn run.text.now) run.tokens.now }
    ensures some { result < length run.entry.tokens.now → 0 < result }
    ensures inside { result ≤ length run.entry.tokens.now }
{
    for number in least.max(1)..run.tokens.len() {
        if may_begin(run.text, &run.tokens[number - 1], &run.tokens[number]) {
            return number;
        }
    }
    run.tokens.len()
}

/// Returns the modules of a run and of the next run, if both spell modules.
pub(crate) fn joined_runs(
    first: Result<Option<Vec<Module>>, AllocError>,
    later: Result<Option<Vec<Module>>, AllocError>,
) -> Result<Option<Vec<Module>>, AllocError>
    ensures { IfOk result (λ found. IfSome found (λ ms. (text : List ℕ) (ts us : List SourceToken)
        → IfOk first (λ f. IfSome f (λ xs. Spells xs.items text ts)) → IfOk later (λ l. IfSome l (λ ys. Spells ys.items text us))
        → Spells ms.items text (ts ++ us))) }
{
    let mut modules = match first? {
        Some(modules) => modules,
        None => return Ok(None),
    };
    let mut more = match later? {
        Some(more) => more,
        None => return Ok(None),
    };
    match modules.append(&mut more) {
        Ok(()) => Ok(Some(modules)),
        Err(_) => Err(AllocError),
    }
}
