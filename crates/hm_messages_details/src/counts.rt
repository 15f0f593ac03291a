//! Finds how many arguments a constructor or a type constructor has, and how many it takes.
ghost use Rattle.std.specs.Prelude.{◌≡◌, List, IfOk, IfSome, true};
ghost use Rattle.hm_types.specs.Interfaces.{Exports as Interface};
ghost use Rattle.hm_names.specs.Bindings.{IsScopeOf};
ghost use Rattle.hm_scope_tables.specs.KnownTables.{AreTablesOf};
ghost use Rattle.hm_messages_details.specs.Counts.{AreArguments, ConstructorTakes, TypeTakes};
ghost use Rattle.hm_messages_details.specs.Parts.{HasArgumentsIn, part_of};

use crate::firsts::is_at;
use crate::parts::{ModulePart, parts_of};
use crate::site::Site;
use hm_names::{Fault, Namespace};
use hm_scope_resolve::special_arity;
use hm_scope_tables::Meaning;
use hm_syntax::Name;
use std::alloc::{AllocError, Global};

/// A number of arguments or patterns, and the number that is right.
#[derive(Clone, Copy)]
pub(crate) struct Counts {
    pub here: usize,
    pub right: usize,
}

impl Counts {
    /// Returns whether the numbers differ.
    pub(crate) fn differ(self) -> bool
        ensures { result ≡ true → ¬ (self.here ≡ self.right) }
    {
        self.here != self.right
    }
}

/// Returns the number of arguments that a type constructor takes.
fn type_arity(site: &Site<'_, '_, '_>, name: &Name) -> Option<usize>
    ensures { IfSome result (λ takes. (fs : List Interface) → IsScopeOf site.now.program.now fs site.now.scope.now → AreTablesOf site.now.program.now fs site.now.tables.now
        → TypeTakes site.now.program.now fs name.now takes) }
{
    match site.scope.meaning(Namespace::Types, name) {
        Meaning::Entity(entity) => site.tables.type_arity(&entity),
        Meaning::Unbound => None,
        Meaning::Ambiguous => None,
    }
}

/// Returns the number of arguments that a constructor in scope takes.
fn scoped_arity(site: &Site<'_, '_, '_>, name: &Name) -> Option<usize>
    ensures { IfSome result (λ takes. (fs : List Interface) → IsScopeOf site.now.program.now fs site.now.scope.now → AreTablesOf site.now.program.now fs site.now.tables.now
        → ConstructorTakes site.now.program.now fs name.now takes) }
{
    match site.scope.meaning(Namespace::Constructors, name) {
        Meaning::Entity(entity) => site.tables.constructor_arity(&entity),
        Meaning::Unbound => None,
        Meaning::Ambiguous => None,
    }
}

/// Returns the number of arguments that a constructor takes.
fn constructor_arity(site: &Site<'_, '_, '_>, name: &Name) -> Option<usize>
    ensures { IfSome result (λ takes. (fs : List Interface) → IsScopeOf site.now.program.now fs site.now.scope.now → AreTablesOf site.now.program.now fs site.now.tables.now
        → ConstructorTakes site.now.program.now fs name.now takes) }
{
    match special_arity(name) {
        Some(arity) => Some(arity),
        None => scoped_arity(site, name),
    }
}

/// Returns the numbers of arguments of a part, if a fault is at it.
fn counts_in(site: &Site<'_, '_, '_>, fault: &Fault, part: ModulePart<'_>) -> Option<Counts>
    ensures { IfSome result (λ c. (fs : List Interface) → IsScopeOf site.now.program.now fs site.now.scope.now → AreTablesOf site.now.program.now fs site.now.tables.now
        → HasArgumentsIn site.now.program.now fs fault.now c.here c.right (part_of part.entry)) }
{
    match part {
        ModulePart::Pattern(name, args) => {
            if !is_at(fault, name) {
                return None;
            }
            let right = constructor_arity(site, name)?;
            Some(Counts {
                here: args.len(),
                right,
            })
        }
        ModulePart::Type(name, args) => {
            if !is_at(fault, name) {
                return None;
            }
            let right = type_arity(site, name)?;
            Some(Counts {
                here: args.len(),
                right,
            })
        }
        ModulePart::List(_) => None,
        ModulePart::Head(_) => None,
        ModulePart::Alone(_) => None,
        ModulePart::Parameters(_) => None,
        ModulePart::Use(_, _) => None,
        ModulePart::End => None,
    }
}

/// Returns the numbers of arguments at a fault, if they differ.
pub(crate) fn argument_counts(
    alloc: Global,
    site: &Site<'_, '_, '_>,
    fault: &Fault,
) -> Result<Option<Counts>, AllocError>
    ensures { IfOk result (λ found. IfSome found (λ c. (fs : List Interface) → IsScopeOf site.now.program.now fs site.now.scope.now
        → AreTablesOf site.now.program.now fs site.now.tables.now → AreArguments site.now.program.now fs fault.now c.here c.right)) }
{
    let parts = parts_of(alloc, site.program)?;
    let row = parts.as_slice();
    'row: for part in row {
        match counts_in(site, fault, *part) {
            Some(counts) => {
                if counts.differ() {
                    return Ok(Some(counts));
                }
            }
            None => {}
        }
    }
    Ok(None)
}
