//! The variables of which a module has signatures.
ghost use Rattle.std.specs.Prelude.{◌≡◌, Contains, IfOk, map, true};
ghost use Rattle.hm_syntax.specs.Names.{Identifier};
ghost use Rattle.hm_messages_trials.specs.TypedSources.{IsSigned, IsSignedIn};

use crate::trial::module_in;
use hm_messages_types::Question;
use hm_scope_resolve::signed_names;
use hm_syntax::{Module, Name};
use std::alloc::{AllocError, Global};

/// Returns whether a name has this text.
fn is_called(name: &Name, text: &str) -> bool
    ensures { result ≡ true → name.now.text ≡ text.now }
{
    name.as_str() == text
}

/// Returns whether one of these names has this text.
fn is_one_of(names: &[&Name], text: &str) -> bool
    ensures { result ≡ true → (n : Identifier) × Contains (map (λ n. n.now) names.now) n × (n.text ≡ text.now) }
{
    'names: for name in names {
        if is_called(name, text) {
            return true;
        }
    }
    false
}

/// Returns whether a module has a signature of a variable.
fn is_signed(alloc: Global, program: &Module, variable: &str) -> Result<bool, AllocError>
    ensures { IfOk result (λ yes. yes ≡ true → IsSigned program.now variable.now) }
{
    let names = signed_names(alloc, program.decls.as_slice())?;
    Ok(is_one_of(names.as_slice(), variable))
}

/// Returns whether the module of a question has a signature of a variable in a source.
pub(crate) fn is_signed_in(
    alloc: Global,
    question: &Question<'_>,
    source: &[u8],
    variable: &str,
) -> Result<bool, AllocError>
    ensures { IfOk result (λ yes. yes ≡ true → IsSignedIn source.now question.now.name.now variable.now) }
{
    let Some(program) = module_in(alloc, source, question.name)? else {
        return Ok(false);
    };
    Ok(is_signed(alloc, &program, variable)?)
}
