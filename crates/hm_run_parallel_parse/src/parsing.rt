//! Parses the tokens of one source with several threads.
ghost use Rattle.std.specs.Prelude.{◌≡◌, ◌<◌, ◌≤◌, All, IfErr, IfOk, IfSome, length};
ghost use Rattle.hm_lex.specs.Faults.{AreTokensOf};
ghost use Rattle.hm_lex.specs.Texts.{LiesIn};
ghost use Rattle.hm_parse_grammar.specs.Grammar.Modules.{Spells};
ghost use Rattle.hm_run_sources.specs.Errors.{IsSourceError};
ghost use Rattle.hm_run_sources.specs.SourceModules.{HasModules};

use crate::Pool;
use crate::runs::{Run, joined_runs, run_end};
use core::thread::Stack;
use hm_lex::Token;
use hm_lex::laws::token_texts;
use hm_parse::parse_run;
use hm_run_parallel_lex::lex_in_parts;
use hm_run_sources::{SetError, source_tokens, spelled_modules};
use hm_syntax::Module;
use std::alloc::{AllocError, Global};
use std::sync::Wait;
use std::thread;
use std::thread::{Scope, Threads};

/// Returns the modules of a run, parsed on this thread.
fn parsed(alloc: Global, run: Run<'_>) -> Result<Option<Vec<Module>>, AllocError>
    requires { All (LiesIn run.text.now) run.tokens.now }
    ensures { IfOk result (λ found. IfSome found (λ modules. Spells modules.items run.entry.text.now run.entry.tokens.now)) }
{
    parse_run(alloc, run.text, run.tokens)
}

/// Returns the modules of the rest of the tokens. Gives a run of at least `least` tokens to another thread, if one can start, while this
/// thread goes on after it.
fn parsed_by_threads<'s, E, R: Threads>(
    rt: &R,
    scope: &Scope<'s, E>,
    alloc: Global,
    rest: Run<'s>,
    least: usize,
) -> Result<Option<Vec<Module>>, AllocError>
    requires { All (LiesIn rest.text.now) rest.tokens.now }
    ensures { IfOk result (λ found. IfSome found (λ modules. Spells modules.items rest.entry.text.now rest.entry.tokens.now)) }
{
    let end = run_end(rest, least);
    if end >= rest.tokens.len() {
        return parsed(alloc, rest);
    }
    let (first, later) = rest.tokens.split_at(end);
    let front = Run {
        text: rest.text,
        tokens: first,
        stack: rest.stack,
    };
    let behind = Run {
        text: rest.text,
        tokens: later,
        stack: rest.stack,
    };
    let thread = Stack::new().stack_size(rest.stack);
    let work = move ||
        requires { All (LiesIn front.text.now) front.tokens.now }
    { parsed(alloc, front) };
    let begun = thread.spawn_scoped_with(scope, front, work);
    let later = parsed_by_threads(rt, scope, alloc, behind, least);
    match begun {
        Ok(thread) => joined_runs(thread.join(rt), later),
        Err(_) => joined_runs(parsed(alloc, front), later),
    }
}

/// Returns the modules that the tokens of a source spell, parsed in at most one run for each thread. Returns `None` if a run spells no modules.
fn parsed_in_runs<T: Threads + Wait + Sync>(
    rt: &T,
    alloc: Global,
    text: &[u8],
    tokens: &[Token],
    pool: Pool,
) -> Result<Option<Vec<Module>>, AllocError>
    requires { All (LiesIn text.now) tokens.now }
    ensures { IfOk result (λ found. IfSome found (λ modules. Spells modules.items text.now tokens.now)) }
{
    let least = (tokens.len() / pool.threads.max(1)).saturating_add(1);
    let stack = pool.stack;
    thread::scope(
        thread::scope_env(),
        rt,
        |scope| -> Result<Option<Vec<Module>>, AllocError>
            requires { All (LiesIn text.now) tokens.now }
            ensures { IfOk result (λ found. IfSome found (λ modules. Spells modules.items text.entry.now tokens.entry.now)) }
        {
            let all = Run {
                text,
                tokens,
                stack,
            };
            parsed_by_threads(rt, scope, alloc, all, least)
        },
    )
}

/// Returns the tokens of the only source of a set. If it can't be lexed in parts, this thread lexes it. So a fault is the one that `lex` returns.
fn lone_tokens<T: Threads + Wait + Sync>(
    rt: &T,
    alloc: Global,
    text: &[u8],
    pool: Pool,
) -> Result<Vec<Token>, SetError>
    ensures ok { IfOk result (λ tokens. AreTokensOf text.now tokens.items) }
    ensures err { IfErr result (IsSourceError 1 text.now) }
{
    match lex_in_parts(rt, alloc, text, pool.threads) {
        Some(tokens) => Ok(tokens),
        None => Ok(source_tokens(alloc, 1, text)?),
    }
}

/// Returns the modules of the only source of a set. If a run spells no modules, for example because of a fault in it, this thread parses all
/// tokens. So a fault is the one that `parse` returns.
pub(crate) fn modules_of<T: Threads + Wait + Sync>(
    rt: &T,
    alloc: Global,
    text: &[u8],
    pool: Pool,
) -> Result<Vec<Module>, SetError>
    ensures ok { IfOk result (λ modules. HasModules text.now modules.items) }
    ensures err { IfErr result (IsSourceError 1 text.now) }
{
    token_texts();
    let tokens = match lone_tokens(rt, alloc, text, pool) {
        Ok(tokens) => tokens,
        Err(fault) => return Err(fault),
    };
    match parsed_in_runs(rt, alloc, text, tokens.as_slice(), pool) {
        Ok(Some(modules)) => Ok(modules),
        Ok(None) => spelled_modules(alloc, 1, text, tokens.as_slice()),
        Err(AllocError) => Err(SetError::Memory),
    }
}
