//! Finds the binding that a signature without one may be meant for.
ghost use Rattle.std.specs.Prelude.{◌≡◌, Contains, IfOk, IfSome, map};
ghost use Rattle.hm_syntax.specs.Names.{Identifier};
ghost use Rattle.hm_syntax.specs.Lists.{declarations};
ghost use Rattle.hm_messages_details.specs.NearBindings.{HasNearBinding, IsNearBinding};
ghost use Rattle.hm_messages_details.specs.Nearness.{AreNear};
ghost use Rattle.hm_messages_details.specs.Parts.{IsNearBindingIn, part_of};

use crate::firsts::is_among;
use crate::nearest::is_near;
use crate::parts::{ModulePart, parts_of};
use hm_names::{Fault, LentNames};
use hm_scope_resolve::{binding_names, signed_names};
use hm_scope_tables::TextSet;
use hm_syntax::{Decl, Module, Name};
use std::alloc::{AllocError, Global};

/// Returns the texts of these names.
fn texts_of<'a>(alloc: Global, names: &LentNames<'a>) -> Result<TextSet<'a>, AllocError> {
    let mut texts = TextSet::new(alloc);
    for name in names.as_slice() {
        texts.insert(name.as_str())?;
    }
    Ok(texts)
}

/// Returns the first of these names that is near to a text and not among the others.
pub(crate) fn near_among<'a>(
    alloc: Global,
    text: &str,
    names: &[&'a Name],
    others: &TextSet<'_>,
) -> Result<Option<&'a str>, AllocError>
    ensures { IfOk result (λ found. IfSome found (λ x. (n : Identifier) × Contains (map (λ n. n.now) names.now) n × (n.text ≡ x.now) × AreNear text.now x.now)) }
{
    'names: for name in names {
        if others.contains(name.as_str()) {
            continue;
        }
        if is_near(alloc, text, name.as_str())? {
            return Ok(Some(name.as_str()));
        }
    }
    Ok(None)
}

/// Returns a near name that a list binds and that has no signature in it, if a fault is at one of the list's signatures.
#[tactic(auto, using(crate::proofs::Signing::near_bound))]
fn near_in_list<'a>(
    alloc: Global,
    fault: &Fault,
    decls: &'a [Decl],
) -> Result<Option<&'a str>, AllocError>
    ensures { IfOk result (λ found. IfSome found (λ x. IsNearBinding (declarations decls.now) fault.now x.now)) }
{
    let signed = signed_names(alloc, decls)?;
    if !is_among(fault, signed.as_slice()) {
        return Ok(None);
    }
    let bound = binding_names(alloc, decls)?;
    let others = texts_of(alloc, &signed)?;
    Ok(near_among(alloc, fault.name.as_str(), bound.as_slice(), &others)?)
}

/// Returns a near name that a part binds, if a fault is at one of its signatures.
fn near_in<'a>(
    alloc: Global,
    fault: &Fault,
    part: ModulePart<'a>,
) -> Result<Option<&'a str>, AllocError>
    ensures { IfOk result (λ found. IfSome found (λ x. IsNearBindingIn (part_of part.entry) fault.now x.now)) }
{
    let ModulePart::List(decls) = part else {
        return Ok(None);
    };
    Ok(near_in_list(alloc, fault, decls)?)
}

// Why: docs/DECISIONS.md, "Near names".
/// Returns a near name that is bound in the list of a signature without clauses.
pub(crate) fn near_binding<'a>(
    alloc: Global,
    program: &'a Module,
    fault: &Fault,
) -> Result<Option<&'a str>, AllocError>
    ensures { IfOk result (λ found. IfSome found (λ x. HasNearBinding program.now fault.now x.now)) }
{
    let parts = parts_of(alloc, program)?;
    let row = parts.as_slice();
    'row: for part in row {
        match near_in(alloc, fault, *part)? {
            Some(name) => return Ok(Some(name)),
            None => {}
        }
    }
    Ok(None)
}
