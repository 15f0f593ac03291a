//! The faults of a module.
use hm_lex::Place;
use hm_syntax::Row;
use hm_types::Text;

/// The kind of a fault. Kinds are in the order of their numbers.
#[derive(Clone, Copy, Debug, PartialEq, Eq)]
pub enum Kind {
    /// An import list has a name that the imported module doesn't export.
    NotExported,
    /// A name has a second declaration or signature, or occurs twice in a list of parameters.
    Duplicate,
    /// A variable has a signature, but no binding by clauses in the same list.
    NoBinding,
    /// A name isn't in scope.
    Unbound,
    /// A name means two or more entities.
    Ambiguous,
    /// An exported name means another entity in an earlier item.
    ExportClash,
    /// `module` and a name are in the export list, but no import has that name.
    NotImported,
    /// A variable occurs twice in the patterns of one clause, lambda or alternative.
    NonLinear,
    /// A type constructor, or a constructor in a pattern, has the wrong number of arguments.
    Arity,
    /// A clause doesn't have as many patterns as the first clause of its binding.
    ClauseLength,
    /// A binding unit has no type.
    Untyped,
    /// A synonym reaches itself through the right sides of synonyms.
    Recursive,
}

/// A fault of a module: its place, its kind, and the name as it is written.
#[derive(Drop)]
pub struct Fault {
    pub place: Place,
    pub kind: Kind,
    pub name: Text,
}

/// Why a module has no core.
#[derive(Drop)]
pub enum ScopeFault {
    /// All faults of the first phase that has any, in order.
    Faults(Row<Fault>),
    /// Memory ran out.
    Memory,
}
