//! A detail of a fault, beyond its kind and its name.
use hm_lex::Place;
use hm_names::Namespace;

/// The place where something is defined: a module, and a name there.
#[derive(Clone, Copy, Debug, PartialEq, Eq)]
pub struct Origin<'a> {
    pub module: &'a str,
    /// Its name in that module.
    pub name: &'a str,
}

/// An entity that an ambiguous name stands for, and how to write it so that it is the only one.
#[derive(Clone, Copy, Debug, PartialEq, Eq)]
pub struct Candidate<'a> {
    pub origin: Origin<'a>,
    /// A qualifier with which the entity's name means it alone.
    pub qualifier: Option<&'a str>,
    /// The line of the import with that qualifier.
    pub line: Option<u32>,
    /// Whether Prelude defines it, and is imported implicitly.
    pub is_implicit: bool,
}

/// A detail of a fault, beyond its kind and its name.
#[derive(Clone, Copy, Debug, PartialEq, Eq)]
pub enum Detail<'a> {
    Nothing,
    /// The name is unbound, and this one is in scope, one edit away: its qualifier, if the name has one, and its text.
    Near(Option<&'a str>, &'a str),
    /// The name is unbound, and this local variable is in scope at its place, one edit away.
    NearLocal(&'a str),
    /// The name is unbound, and the Report's Prelude has it as what it stands for here. This Prelude leaves it out.
    LeftOut,
    /// The name is ambiguous, and means both of these.
    Either(Candidate<'a>, Candidate<'a>),
    /// There is an earlier one of the same name, and the first is here.
    First(Place),
    /// The name has so many arguments, and takes so many.
    Arguments(usize, usize),
    /// The clause has so many patterns, and the first clause of its binding so many.
    Patterns(usize, usize),
    /// The module with this name doesn't export the name, or not as a constructor of this type. Perhaps it exports this one, one edit away.
    NotFrom(&'a str, Option<&'a str>, Option<&'a str>),
    /// The name has a signature without clauses, and the same list binds this one, one edit away.
    NearBinding(&'a str),
    /// The name is unbound where it stands, and in scope in this namespace.
    Elsewhere(Namespace),
    /// The name has a signature without clauses, and a pattern of the same list binds it.
    ByPattern,
}
