//! The details of faults of names.
ghost use Rattle.std.specs.Prelude.{◌≡◌, ◌⊎◌, List, IfOk, IfSome, map};
ghost use Rattle.hm_types.specs.Interfaces.{Exports as Interface};
ghost use Rattle.hm_names.specs.Bindings.{IsScopeOf};
ghost use Rattle.hm_names.specs.declared.faults.Kind.TheVariants.{Ambiguous, Arity, ClauseLength, Duplicate, NoBinding, NonLinear, Unbound};
ghost use Rattle.hm_scope_tables.specs.KnownTables.{AreTablesOf};
ghost use Rattle.hm_messages_details.specs.Details.{IsKnown, known_of};
ghost use Rattle.hm_messages_details.specs.Parts.{module_parts, part_of};
ghost use Rattle.hm_messages_details.specs.Roles.{HasRole};

use crate::candidates::candidate;
use crate::counts::argument_counts;
use crate::detail::Detail;
use crate::firsts::first_of_two;
use crate::left_out::is_left_out;
use crate::lengths::pattern_counts;
use crate::listed::import_detail;
use crate::locals::near_local;
use crate::nearest::{entity_of, nearest, other_entity_of, space_of};
use crate::parts::{ModulePart, parts_of};
use crate::patterned::is_pattern_bound;
use crate::role::Role;
use crate::roles::role_of;
use crate::signed::near_binding;
use crate::site::Site;
use hm_names::{Fault, Kind, Namespace};
use hm_scope_tables::Scope;
use hm_syntax::Module;
use std::alloc::{AllocError, Global};

/// Returns the detail of an unbound name with this role, if there is one. `parts` are those of the module.
fn unbound_detail<'s>(
    alloc: Global,
    site: &Site<'_, 's, '_>,
    fault: &Fault,
    role: Role,
    parts: &[ModulePart<'s>],
) -> Result<Detail<'s>, AllocError>
    requires unbound { fault.now.kind ≡ Unbound }
    requires stands { HasRole site.now.program.now fault.now role }
    requires parts { map part_of parts.now ≡ module_parts site.now.program.now.decls }
    ensures { IfOk result (λ detail. (fs : List Interface) → IsScopeOf site.now.program.now fs site.now.scope.now
        → IsKnown site.now.program.now fs fault.now (known_of detail)) }
{
    if is_left_out(fault.name.as_str(), role) {
        return Ok(Detail::LeftOut);
    }
    match near_local(alloc, parts, fault)? {
        Some(near) => return Ok(Detail::NearLocal(near)),
        None => {}
    }
    match nearest(alloc, fault.name.as_str(), role, site.scope.pairs())? {
        Some(pair) => Ok(Detail::Near(pair.qualifier(), pair.text())),
        None => Ok(Detail::Nothing),
    }
}

/// Returns the detail of an unbound name: a namespace in which it is in scope, or another detail, if there is one.
fn name_detail<'s>(
    alloc: Global,
    site: &Site<'_, 's, '_>,
    fault: &Fault,
) -> Result<Detail<'s>, AllocError>
    requires { fault.now.kind ≡ Unbound }
    ensures { IfOk result (λ detail. (fs : List Interface) → IsScopeOf site.now.program.now fs site.now.scope.now
        → IsKnown site.now.program.now fs fault.now (known_of detail)) }
{
    match space_of(fault.name.as_str(), site.scope.pairs()) {
        Some(space) => return Ok(Detail::Elsewhere(space)),
        None => {}
    }
    let parts = parts_of(alloc, site.program)?;
    match role_of(site.program, parts.as_slice(), fault) {
        Some(role) => Ok(unbound_detail(alloc, site, fault, role, parts.as_slice())?),
        None => Ok(Detail::Nothing),
    }
}

/// Returns two entities that a name means in a namespace, if there are two.
fn either_in<'a>(
    program: &Module,
    scope: &Scope<'a>,
    name: &str,
    space: Namespace,
) -> Option<Detail<'a>>
    ensures { IfSome result (λ detail. (f : Fault) (fs : List Interface) → f.kind ≡ Ambiguous → f.name ≡ name.now → IsScopeOf program.now fs scope.now
        → IsKnown program.now fs f (known_of detail)) }
{
    let row = scope.pairs();
    let one = entity_of(name, space, row)?;
    let other = other_entity_of(name, space, row, one.entity())?;
    let first = candidate(program, row, space, one.entity());
    let second = candidate(program, row, space, other.entity());
    Some(Detail::Either(first, second))
}

/// Returns the detail of an ambiguous name, if there is one.
fn ambiguous_detail<'a>(program: &Module, scope: &Scope<'a>, fault: &Fault) -> Detail<'a>
    requires { fault.now.kind ≡ Ambiguous }
    ensures { (fs : List Interface) → IsScopeOf program.now fs scope.now → IsKnown program.now fs fault.now (known_of result) }
{
    let name = fault.name.as_str();
    for space in [Namespace::Values, Namespace::Constructors, Namespace::Types] {
        if let Some(detail) = either_in(program, scope, name, space) {
            return detail;
        }
    }
    Detail::Nothing
}

/// Returns the detail of a signature without clauses: a pattern that binds the name, or a near name that its list binds, if there is one.
fn signature_detail<'a>(
    alloc: Global,
    program: &'a Module,
    fault: &Fault,
) -> Result<Detail<'a>, AllocError>
    requires { fault.now.kind ≡ NoBinding }
    ensures { IfOk result (λ detail. (fs : List Interface) → IsKnown program.now fs fault.now (known_of detail)) }
{
    if is_pattern_bound(alloc, program, fault)? {
        return Ok(Detail::ByPattern);
    }
    match near_binding(alloc, program, fault)? {
        Some(name) => Ok(Detail::NearBinding(name)),
        None => Ok(Detail::Nothing),
    }
}

/// Returns the detail of a second declaration: the first one, if it is found.
fn second_detail<'a>(
    alloc: Global,
    program: &Module,
    fault: &Fault,
) -> Result<Detail<'a>, AllocError>
    requires { (fault.now.kind ≡ Duplicate) ⊎ (fault.now.kind ≡ NonLinear) }
    ensures { IfOk result (λ detail. (fs : List Interface) → IsKnown program.now fs fault.now (known_of detail)) }
{
    match first_of_two(alloc, program, fault)? {
        Some(place) => Ok(Detail::First(place)),
        None => Ok(Detail::Nothing),
    }
}

/// Returns the detail of a wrong number of arguments, if there is one.
fn arity_detail<'a>(
    alloc: Global,
    site: &Site<'_, '_, '_>,
    fault: &Fault,
) -> Result<Detail<'a>, AllocError>
    requires { fault.now.kind ≡ Arity }
    ensures { IfOk result (λ detail. (fs : List Interface) → IsScopeOf site.now.program.now fs site.now.scope.now → AreTablesOf site.now.program.now fs site.now.tables.now
        → IsKnown site.now.program.now fs fault.now (known_of detail)) }
{
    match argument_counts(alloc, site, fault)? {
        Some(counts) => Ok(Detail::Arguments(counts.here, counts.right)),
        None => Ok(Detail::Nothing),
    }
}

/// Returns the detail of a wrong number of patterns, if there is one.
fn length_detail<'a>(
    alloc: Global,
    program: &Module,
    fault: &Fault,
) -> Result<Detail<'a>, AllocError>
    requires { fault.now.kind ≡ ClauseLength }
    ensures { IfOk result (λ detail. (fs : List Interface) → IsKnown program.now fs fault.now (known_of detail)) }
{
    match pattern_counts(alloc, program, fault)? {
        Some(counts) => Ok(Detail::Patterns(counts.here, counts.right)),
        None => Ok(Detail::Nothing),
    }
}

/// Returns what is known of a fault of a module: a name that it may be meant for, what it stands for, where the first of two is, numbers of arguments or
/// patterns, or the module that doesn't export it.
///
/// The time goes by the size of the module and by the number of the scope's pairs.
pub fn detail_of<'s>(
    alloc: Global,
    site: &Site<'_, 's, '_>,
    fault: &Fault,
) -> Result<Detail<'s>, AllocError>
    ensures { IfOk result (λ detail. (fs : List Interface) → fs ≡ map (λ f. f.now) site.now.interfaces.now → IsScopeOf site.now.program.now fs site.now.scope.now
        → AreTablesOf site.now.program.now fs site.now.tables.now → IsKnown site.now.program.now fs fault.now (known_of detail)) }
{
    match fault.kind {
        Kind::Unbound => Ok(name_detail(alloc, site, fault)?),
        Kind::Ambiguous => Ok(ambiguous_detail(site.program, site.scope, fault)),
        Kind::Duplicate => Ok(second_detail(alloc, site.program, fault)?),
        Kind::NonLinear => Ok(second_detail(alloc, site.program, fault)?),
        Kind::Arity => Ok(arity_detail(alloc, site, fault)?),
        Kind::ClauseLength => Ok(length_detail(alloc, site.program, fault)?),
        Kind::NotExported => Ok(import_detail(alloc, site.program, site.interfaces, fault)?),
        Kind::NoBinding => Ok(signature_detail(alloc, site.program, fault)?),
        _ => Ok(Detail::Nothing),
    }
}
