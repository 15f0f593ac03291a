//! Finds near names among the local variables at the place of a fault.
ghost use Rattle.std.specs.Prelude.{◌≡◌, [], Contains, IfOk, IfSome, OnOk, map, true};
ghost use Rattle.hm_syntax.specs.declared.ast.Module.{Module as ModuleTree};
ghost use Rattle.hm_messages_details.specs.Nearness.{AreNear};
ghost use Rattle.hm_messages_details.specs.NearLocals.{HasNearLocal};
ghost use Rattle.hm_messages_details.specs.Parts.{module_parts, part_of};
ghost use Rattle.hm_messages_details.specs.Scopes.{IsUseOf, IsUseWithin, Occurs, binders, locals_of, open_after, open_in};

use crate::firsts::is_at;
use crate::parts::ModulePart;
use crate::role::Role;
use crate::signed::near_among;
use hm_names::{Fault, LentNames, add_all_bound, add_pattern, add_patterns};
use hm_scope_tables::TextSet;
use std::alloc::{AllocError, Global};

/// Returns whether a fault is at a variable without a qualifier.
fn is_use(fault: &Fault, part: ModulePart<'_>) -> bool
    ensures { result ≡ true → IsUseOf fault.now (part_of part.entry) }
{
    let ModulePart::Use(role, name) = part else {
        return false;
    };
    let Role::Variable = role else {
        return false;
    };
    if name.qualifier.is_some() {
        return false;
    }
    is_at(fault, name)
}

/// Opens the scope of a part, or closes the innermost one at its end.
fn pass<'a>(scopes: &mut Vec<ModulePart<'a>>, part: ModulePart<'a>) -> Result<(), AllocError>
    ensures { OnOk result (open_in scopes.new.items ≡ open_after (open_in scopes.old.items) (part_of part.entry)) }
{
    match part {
        ModulePart::List(_) => Ok(scopes.push(part)?),
        ModulePart::Head(_) => Ok(scopes.push(part)?),
        ModulePart::Alone(_) => Ok(scopes.push(part)?),
        ModulePart::End => {
            scopes.pop();
            Ok(())
        }
        ModulePart::Parameters(_) => Ok(()),
        ModulePart::Pattern(_, _) => Ok(()),
        ModulePart::Type(_, _) => Ok(()),
        ModulePart::Use(_, _) => Ok(()),
    }
}

/// Returns the scopes around the variable that a fault is at, the innermost last.
fn scopes_around<'a>(
    alloc: Global,
    parts: &[ModulePart<'a>],
    fault: &Fault,
) -> Result<Option<Vec<ModulePart<'a>>>, AllocError>
    ensures { IfOk result (λ found. IfSome found (λ scopes. Occurs (IsUseWithin fault.now (open_in scopes.items)) [] (map part_of parts.now))) }
{
    let mut scopes = Vec::new(alloc);
    'parts: for part in parts {
        if is_use(fault, *part) {
            return Ok(Some(scopes));
        }
        pass(&mut scopes, *part)?;
    }
    Ok(None)
}

/// Returns the variables whose scope a part opens.
fn variables_of<'a>(alloc: Global, part: ModulePart<'a>) -> Result<LentNames<'a>, AllocError>
    ensures { IfOk result (λ names. names ≡ binders (part_of part.entry)) }
{
    let mut names = LentNames::new(alloc);
    match part {
        ModulePart::List(decls) => {
            add_all_bound(&mut names, decls)?;
            Ok(names)
        }
        ModulePart::Head(pats) => {
            add_patterns(&mut names, pats)?;
            Ok(names)
        }
        ModulePart::Alone(pat) => {
            add_pattern(&mut names, pat)?;
            Ok(names)
        }
        ModulePart::End => Ok(names),
        ModulePart::Parameters(_) => Ok(names),
        ModulePart::Pattern(_, _) => Ok(names),
        ModulePart::Type(_, _) => Ok(names),
        ModulePart::Use(_, _) => Ok(names),
    }
}

/// Returns a near name among the variables of scopes, those of the last scope first.
fn near_within<'a>(
    alloc: Global,
    fault: &Fault,
    scopes: &[ModulePart<'a>],
) -> Result<Option<&'a str>, AllocError>
    ensures { IfOk result (λ found. IfSome found (λ x. Contains (locals_of (open_in scopes.now)) x.now × AreNear fault.now.name x.now)) }
{
    let others = TextSet::new(alloc);
    'scopes: for from_end in 0..scopes.len() {
        let place = scopes.len() - 1 - from_end;
        let scope = scopes[place];
        let names = variables_of(alloc, scope)?;
        match near_among(alloc, fault.name.as_str(), names.as_slice(), &others)? {
            Some(near) => return Ok(Some(near)),
            None => {}
        }
    }
    Ok(None)
}

// Why: docs/DECISIONS.md, "Near local variables".
/// Returns a near name that a pattern or a declaration binds in whose scope the fault is. The innermost one comes first.
pub(crate) fn near_local<'a>(
    alloc: Global,
    parts: &[ModulePart<'a>],
    fault: &Fault,
) -> Result<Option<&'a str>, AllocError>
    ensures { IfOk result (λ found. IfSome found (λ x. («module» : ModuleTree) → map part_of parts.now ≡ module_parts «module».decls
        → HasNearLocal «module» fault.now x.now)) }
{
    let Some((_, declared)) = parts.split_first() else {
        return Ok(None);
    };
    match scopes_around(alloc, declared, fault)? {
        Some(scopes) => Ok(near_within(alloc, fault, scopes.as_slice())?),
        None => Ok(None),
    }
}
