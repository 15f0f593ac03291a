//! The numbers of arguments of a name in two sources.
ghost use Rattle.std.specs.Prelude.{◌≡◌, ◌+◌, ◌++◌, Contains, IfOk, IfSome, codes, flat_map, map, string_bytes, true};
ghost use Rattle.hm_names.specs.Faults.Phases.{written};
ghost use Rattle.hm_run_sources.specs.SourceModules.{HasModules};
ghost use Rattle.hm_messages_arguments.specs.Applied.{applied_of, module_applied};

use crate::applied::Applied;
use hm_lex::{LexFault, lex};
use hm_parse::{ParseFault, parse};
use hm_syntax::{Module, Name};
use std::alloc::{AllocError, Global};

/// Returns the modules that a source spells, or `None` if it spells none.
pub(crate) fn modules_in(alloc: Global, source: &[u8]) -> Result<Option<Vec<Module>>, AllocError>
    ensures { IfOk result (λ found. IfSome found (λ modules. HasModules source.now modules.items)) }
{
    let tokens = match lex(alloc, source) {
        Ok(tokens) => tokens,
        Err(LexFault::Memory) => return Err(AllocError),
        Err(_) => return Ok(None),
    };
    match parse(alloc, source, tokens.as_slice()) {
        Ok(modules) => Ok(Some(modules)),
        Err(ParseFault::Memory) => Err(AllocError),
        Err(_) => Ok(None),
    }
}

/// The same name in two sources.
#[derive(Clone, Copy)]
pub(crate) struct Both<'a, 'b> {
    pub here: Applied<'a>,
    pub then: Applied<'b>,
}

/// Returns the first two names at the same index that have other numbers of arguments.
pub(crate) fn first_other<'a, 'b>(
    here: &[Applied<'a>],
    then: &[Applied<'b>],
) -> Option<Both<'a, 'b>>
    ensures here { IfSome result (λ b. Contains (map applied_of here.now) (applied_of b.here)) }
    ensures then { IfSome result (λ b. Contains (map applied_of then.now) (applied_of b.then)) }
{
    let count = here.len().min(then.len());
    for index in 0..count {
        let both = Both {
            here: here[index],
            then: then[index],
        };
        if both.here.arguments != both.then.arguments {
            return Some(both);
        }
    }
    None
}

/// Returns whether a name has exactly one argument more than another.
pub(crate) fn has_one_more(more: Applied<'_>, less: Applied<'_>) -> bool
    ensures { result ≡ true → more.entry.arguments ≡ less.entry.arguments + 1 }
{
    match less.arguments.checked_add(1) {
        Some(count) => more.arguments == count,
        None => false,
    }
}

/// Returns whether two names are written the same.
pub(crate) fn are_same(one: &Name, other: &Name) -> bool
    ensures { result ≡ true → written one.now ≡ written other.now }
{
    let is_same_qualifier = match (&one.qualifier, &other.qualifier) {
        (None, None) => true,
        (Some(one), Some(other)) => one.as_str() == other.as_str(),
        _ => false,
    };
    is_same_qualifier && one.text.as_str() == other.text.as_str()
}

/// Returns a name with its qualifier.
fn with_qualifier(alloc: Global, qualifier: &str, name: &str) -> Result<String, AllocError>
    ensures { IfOk result (λ text. string_bytes text ≡ qualifier.now ++ codes "." ++ name.now) }
{
    format!(in alloc; "{qualifier}.{name}")
}

/// Returns a name as it is written.
pub(crate) fn written_name(alloc: Global, name: &Name) -> Result<String, AllocError>
    ensures { IfOk result (λ text. string_bytes text ≡ written name.now) }
{
    let text = name.text.as_str();
    match &name.qualifier {
        Some(qualifier) => with_qualifier(alloc, qualifier.as_str(), text),
        None => String::from_str(alloc, text),
    }
}
