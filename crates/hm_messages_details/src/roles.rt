//! Finds what the name of a fault stands for at its place.
ghost use Rattle.std.specs.Prelude.{◌≡◌, IfSome, map};
ghost use Rattle.hm_syntax.specs.declared.ast.Module.{Module as ModuleTree};
ghost use Rattle.hm_names.specs.Walk.{Somewhere};
ghost use Rattle.hm_messages_details.specs.Firsts.{IsAt};
ghost use Rattle.hm_messages_details.specs.Parts.{IsPartRole, module_parts, part_of};
ghost use Rattle.hm_messages_details.specs.Roles.{HasRole, IsExportedAs, IsRoleAt, IsRoleIn};

use crate::firsts::is_at;
use crate::parts::ModulePart;
use crate::role::Role;
use hm_names::Fault;
use hm_syntax::{Export, Module, Name};

/// Returns a role of the name of a fault, if the fault is at this name.
fn role_at(fault: &Fault, name: &Name, role: Role) -> Option<Role>
    ensures { IfSome result (λ r. (r ≡ role) × IsAt fault.now name.now) }
{
    if !is_at(fault, name) {
        return None;
    }
    Some(role)
}

/// Returns the role of the name of a fault in a part, if the fault is at the part's own name.
fn role_in_part(fault: &Fault, part: ModulePart<'_>) -> Option<Role>
    ensures { IfSome result (IsPartRole (part_of part.entry) fault.now) }
{
    match part {
        ModulePart::Use(role, name) => role_at(fault, name, role),
        ModulePart::Pattern(name, _) => role_at(fault, name, Role::Constructor),
        ModulePart::Type(name, _) => role_at(fault, name, Role::TypeConstructor),
        ModulePart::List(_) => None,
        ModulePart::Head(_) => None,
        ModulePart::Alone(_) => None,
        ModulePart::Parameters(_) => None,
        ModulePart::End => None,
    }
}

/// Returns the role of the name of a fault in the parts of a module, if the fault is in a tree there.
fn role_in_trees(parts: &[ModulePart<'_>], fault: &Fault) -> Option<Role>
    ensures { IfSome result (λ r. («module» : ModuleTree) → map part_of parts.now ≡ module_parts «module».decls
        → Somewhere «module» (λ xs k. IsRoleAt fault.now r k)) }
{
    'parts: for part in parts {
        match role_in_part(fault, *part) {
            Some(role) => return Some(role),
            None => {}
        }
    }
    None
}

/// Returns the role of the name of a fault in an export, if the fault is at its variable or its type.
fn role_in_export(fault: &Fault, item: &Export) -> Option<Role>
    ensures { IfSome result (λ r. IsRoleIn fault.now r item.now) }
{
    match item {
        Export::Var(name) => role_at(fault, name, Role::ExportedVariable),
        Export::Con(name, _) => role_at(fault, name, Role::TypeConstructor),
        Export::Whole(_) => None,
    }
}

/// Returns the role of the name of a fault in the export list of a module, if it has one.
#[tactic(auto, using(crate::proofs::RolesOfExports::exported_as))]
fn role_in_exports(program: &Module, fault: &Fault) -> Option<Role>
    ensures { IfSome result (IsExportedAs program.now fault.now) }
{
    match &program.header.exports {
        Some(items) => {
            let row = items.as_slice();
            'row: for item in row {
                match role_in_export(fault, item) {
                    Some(role) => return Some(role),
                    None => {}
                }
            }
            None
        }
        None => None,
    }
}

/// Returns what the name of a fault stands for at its place, if it has a role there. `parts` are those of the module.
pub(crate) fn role_of(program: &Module, parts: &[ModulePart<'_>], fault: &Fault) -> Option<Role>
    requires { map part_of parts.now ≡ module_parts program.now.decls }
    ensures { IfSome result (HasRole program.now fault.now) }
{
    match role_in_exports(program, fault) {
        Some(role) => return Some(role),
        None => {}
    }
    role_in_trees(parts, fault)
}
