//! A module in which faults were found.
use hm_scope_entities::Tables;
use hm_scope_tables::Scope;
use hm_syntax::Module;
use hm_types::Interface;

/// A module, with the interfaces of Prelude and of what it imports, its scope, and the tables of its types and constructors.
#[derive(Clone, Copy)]
pub struct Site<'r, 's, 't> {
    pub program: &'s Module,
    pub interfaces: &'r [&'s Interface],
    pub scope: &'r Scope<'s>,
    pub tables: &'r Tables<'t>,
}
