//! Finds a pattern that binds the variable of a signature.
ghost use Rattle.std.specs.Prelude.{◌≡◌, Contains, IfOk, map, true};
ghost use Rattle.hm_syntax.specs.Names.{Identifier};
ghost use Rattle.hm_syntax.specs.Lists.{declarations};
ghost use Rattle.hm_messages_details.specs.Parts.{IsPatternBoundIn, part_of};
ghost use Rattle.hm_messages_details.specs.PatternBindings.{HasPatternBound, HasPatternOf, IsPatternBound, IsPatternOf};

use crate::firsts::is_among;
use crate::parts::{ModulePart, parts_of};
use hm_names::{Fault, LentNames, add_pattern};
use hm_scope_resolve::signed_names;
use hm_syntax::{Decl, DeclKind, Module, Name};
use std::alloc::{AllocError, Global};

/// Returns whether a name has this text.
fn is_called(name: &Name, text: &str) -> bool
    ensures { result ≡ true → name.now.text ≡ text.now }
{
    name.as_str() == text
}

/// Returns whether one of these names has this text.
fn is_one_of(names: &[&Name], text: &str) -> bool
    ensures { result ≡ true → (n : Identifier) × Contains (map (λ n. n.now) names.now) n × (n.text ≡ text.now) }
{
    'names: for name in names {
        if is_called(name, text) {
            return true;
        }
    }
    false
}

/// Returns whether a declaration binds a pattern with a variable of this name.
fn is_pattern_of(alloc: Global, name: &str, decl: &Decl) -> Result<bool, AllocError>
    ensures { IfOk result (λ is. is ≡ true → IsPatternOf name.now decl.now) }
{
    match &decl.kind {
        DeclKind::Pattern { pat, .. } => {
            let mut variables = LentNames::new(alloc);
            add_pattern(&mut variables, pat)?;
            Ok(is_one_of(variables.as_slice(), name))
        }
        DeclKind::DataType { .. } => Ok(false),
        DeclKind::Newtype { .. } => Ok(false),
        DeclKind::Synonym { .. } => Ok(false),
        DeclKind::Signature { .. } => Ok(false),
        DeclKind::Clause { .. } => Ok(false),
    }
}

/// Returns whether a declaration of a list binds a pattern with a variable of this name.
#[tactic(auto, using(crate::proofs::BoundByPatterns::has_at))]
fn has_pattern_of(alloc: Global, name: &str, decls: &[Decl]) -> Result<bool, AllocError>
    ensures { IfOk result (λ has. has ≡ true → HasPatternOf name.now (declarations decls.now)) }
{
    'decls: for decl in decls {
        if is_pattern_of(alloc, name, decl)? {
            return Ok(true);
        }
    }
    Ok(false)
}

/// Returns whether a fault is at a signature of a list, and a pattern of this list binds its name.
#[tactic(auto, using(crate::proofs::BoundByPatterns::bound_by))]
fn is_bound_in_list(alloc: Global, fault: &Fault, decls: &[Decl]) -> Result<bool, AllocError>
    ensures { IfOk result (λ is. is ≡ true → IsPatternBound (declarations decls.now) fault.now) }
{
    let signed = signed_names(alloc, decls)?;
    if !is_among(fault, signed.as_slice()) {
        return Ok(false);
    }
    Ok(has_pattern_of(alloc, fault.name.as_str(), decls)?)
}

/// Returns whether a fault is at a signature of a part, and a pattern of this part binds its name.
fn is_bound_in(alloc: Global, fault: &Fault, part: ModulePart<'_>) -> Result<bool, AllocError>
    ensures { IfOk result (λ is. is ≡ true → IsPatternBoundIn (part_of part.entry) fault.now) }
{
    let ModulePart::List(decls) = part else {
        return Ok(false);
    };
    Ok(is_bound_in_list(alloc, fault, decls)?)
}

/// Returns whether a pattern binds the variable of a signature without clauses.
pub(crate) fn is_pattern_bound(
    alloc: Global,
    program: &Module,
    fault: &Fault,
) -> Result<bool, AllocError>
    ensures { IfOk result (λ is. is ≡ true → HasPatternBound program.now fault.now) }
{
    let parts = parts_of(alloc, program)?;
    let row = parts.as_slice();
    'row: for part in row {
        if is_bound_in(alloc, fault, *part)? {
            return Ok(true);
        }
    }
    Ok(false)
}
