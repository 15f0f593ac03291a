//! Modules from sources.

ghost use Rattle.std.specs.Prelude.{IfOk};
ghost use Rattle.hm_lex.specs.Faults.{AreTokensOf};

use hm_lex::{LexFault, Token, lex};
use hm_parse::{ParseFault, parse};
use hm_syntax::Module;
use std::alloc::Global;
use std::sync::Arc;
use std::test::Fail;

/// The error of a test that runs out of memory before its call.
pub(crate) const NO_MEMORY: &str = "no memory";

/// Returns the tokens of a source.
pub(crate) fn tokens_of(alloc: Global, source: &[u8]) -> Result<Vec<Token>, Fail>
    ensures { IfOk result (λ tokens. AreTokensOf source.now tokens.items) }
{
    match lex(alloc, source) {
        Ok(tokens) => Ok(tokens),
        Err(LexFault::Memory) => Err(Fail::from(NO_MEMORY)),
        Err(_) => Err(Fail::from("the text is refused")),
    }
}

/// Returns the modules of a source.
fn modules_of(alloc: Global, source: &[u8]) -> Result<Vec<Module>, Fail> {
    let tokens = tokens_of(alloc, source)?;
    match parse(alloc, source, &tokens) {
        Ok(modules) => Ok(modules),
        Err(ParseFault::Memory) => Err(Fail::from(NO_MEMORY)),
        Err(ParseFault::Syntax(_)) => Err(Fail::from("syntax is refused")),
    }
}

/// Returns the only module of a source.
pub(crate) fn module_of(alloc: Global, source: &[u8]) -> Result<Arc<Module>, Fail> {
    let mut modules = modules_of(alloc, source)?;
    let module = modules.pop().ok_or("no module")?;
    if !modules.is_empty() {
        return Err(Fail::from("more than one module"));
    }
    Ok(Arc::new(alloc, module)?)
}
