//! The walk over the declarations of a module.
ghost use Rattle.std.specs.Prelude.{◌≡◌, List, ℕ, IfOk, OnOk, IsTrue, ◌↔◌, map, All};
ghost use Rattle.hm_types.specs.Interfaces.{Exports as Interface};
ghost use Rattle.hm_syntax.specs.Lists.{declarations};
ghost use Rattle.hm_names.specs.Bindings.{IsScopeOf};
ghost use Rattle.hm_names.specs.Entities.{Declares};
ghost use Rattle.hm_names.specs.Texts.{is_text_among};
ghost use Rattle.hm_names.specs.Variables.{texts};
ghost use Rattle.hm_names.specs.declared.namespace.Namespace.TheVariants.{Values};
ghost use Rattle.hm_uses.specs.Mentions.{declarations_mentions};
ghost use Rattle.hm_uses.specs.Uses.{IsUse};

use crate::uses::Use;
use crate::walking::Walk;
use hm_names::{LentNames, add_all_bound};
use hm_scope_tables::{Scope, TextSet};
use hm_syntax::{Module, Name};
use hm_uses::laws::found_uses;
use std::alloc::{AllocError, Global};

/// Returns the texts of names.
fn texts_of<'a>(alloc: Global, names: &[&'a Name]) -> Result<TextSet<'a>, AllocError>
    ensures { IfOk result (λ set. (x : List ℕ) → is_text_among x set ≡ is_text_among x (texts (map (λ n. n.now) names.now))) }
{
    let mut set = TextSet::new(alloc);
    'names: for name in names {
        set.insert(name.as_str())?;
    }
    Ok(set)
}

/// Returns the texts of the variables that a module declares.
fn declared_variables(alloc: Global, program: &Module) -> Result<TextSet<'_>, AllocError>
    ensures { IfOk result (λ set. (x : List ℕ) → IsTrue (is_text_among x set) ↔ Declares program.now x Values) }
{
    let mut names = LentNames::new(alloc);
    add_all_bound(&mut names, program.decls.as_slice())?;
    Ok(texts_of(alloc, names.as_slice())?)
}

/// Returns the uses of names in the declarations of a module, with the scope of the module: each name that is written there, in the order of the
/// text, with what it means.
///
/// The scope may have faults: names may be unbound or ambiguous in it.
///
/// # Errors
///
/// If memory runs out.
pub fn declaration_uses<'a>(
    alloc: Global,
    program: &'a Module,
    scope: &Scope<'a>,
) -> Result<Vec<Use<'a>>, AllocError>
    ensures names { IfOk result (λ uses. map (λ u. u.mention) uses.items ≡ declarations_mentions (declarations program.now.decls)) }
    ensures meanings { IfOk result (λ uses. (fs : List Interface) → IsScopeOf program.now fs scope.now → All (IsUse program.now fs) uses.items) }
{
    found_uses();
    let top = declared_variables(alloc, program)?;
    let mut walk = Walk::new(alloc, program.header.name.as_text(), &top, scope);
    walk.decl_row(alloc, program.decls.as_slice())?;
    Ok(walk.into_found())
}
