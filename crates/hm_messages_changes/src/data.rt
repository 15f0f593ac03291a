//! The data of changed sources: the hole, ranges of a source, and where a definition is.

use hm_lex::Place;

/// An expression of every type.
pub const HOLE: &str = "(let { h = h } in h)";

/// Bytes of a source, from one number up to another.
#[derive(Clone, Copy)]
pub struct Span {
    pub from: usize,
    pub to: usize,
}

/// A part of a source, with the places of its first and last bytes.
#[derive(Clone, Copy)]
pub struct SourceRange {
    /// Where the part begins, in bytes of the source.
    pub from: usize,
    /// Where it ends.
    pub to: usize,
    /// The place of its first byte.
    pub start: Place,
    /// The place of its last byte.
    pub end: Place,
}

/// The text around the bindings for the variables of a removed pattern.
#[derive(Clone, Copy)]
pub enum Frame {
    /// A `where` of their own, after a clause or an alternative.
    Where,
    /// Nothing: they come before the declarations of a `where` that is there.
    Front,
    /// A `let`, before the body of a lambda.
    Let,
}

/// The variables of a removed pattern, and where they are bound.
#[derive(Clone, Copy)]
pub struct Rebound<'a> {
    pub at: usize,
    pub frame: Frame,
    pub variables: &'a [Span],
}

/// A definition that is a hole in a changed source: its name and its bytes.
#[derive(Clone, Copy)]
pub struct Other<'a> {
    pub name: &'a str,
    pub from: usize,
    pub to: usize,
}

/// How a definition is written where it is local.
#[derive(Clone, Copy)]
pub struct Local<'a> {
    /// The name that it has there.
    pub name: &'a str,
    /// The names before a part, in order, in whose place this one is written.
    pub before: &'a [Span],
    /// The same after the part.
    pub after: &'a [Span],
}

/// Where a definition is in a source.
#[derive(Clone, Copy)]
pub struct Layout<'a> {
    pub source: &'a [u8],
    /// The name of the definition.
    pub name: &'a str,
    pub local: Local<'a>,
    /// Where the export list of the module begins, if it has one.
    pub exported: Option<usize>,
    /// The names of types that are added to the export list.
    pub names: &'a [Span],
    /// The bytes of the definition.
    pub whole: Span,
    /// The definitions before it that are holes, in order.
    pub before: &'a [Other<'a>],
    /// The definitions after it that are holes, in order.
    pub after: &'a [Other<'a>],
}
