//! The data of changed sources: copies of definitions, and where a value has the type of a part.

use hm_messages_changes::{Local, Span};

/// A name whose type is read.
#[derive(Clone, Copy)]
pub struct NamePart {
    /// The bytes of the name.
    pub part: Span,
    /// Whether the name binds or declares something at its place.
    pub binds: bool,
}

/// Where a declaration is put in so that a variable is in scope.
#[derive(Clone, Copy)]
pub enum Scoped {
    /// In a `where` of its own, after a clause or an alternative.
    Where,
    /// First in a `where` that is there.
    Front,
    /// After another declaration of its list.
    After,
    /// In a `let` before the body of a lambda.
    Let,
}

/// Where a value has the type of a part.
#[derive(Clone, Copy)]
pub enum Point {
    /// These bytes are an expression.
    Expression(Span),
    /// These bytes are a variable, which is in scope for a declaration that is put in at this byte.
    Variable(Span, usize, Scoped),
}

/// A definition that has a copy.
#[derive(Clone, Copy)]
pub struct Copied<'a> {
    /// The bytes of the definition.
    pub whole: Span,
    /// Its name. A pattern binding has `()` at top level, and the tuple of its variables elsewhere.
    pub name: &'a str,
    /// An expression outside of it that has its value: its name, perhaps with a qualifier, or `()`.
    pub value: &'a str,
    /// How its copy is written.
    pub local: Local<'a>,
}

/// A part inside of definitions, each of which is inside of the one before.
#[derive(Clone, Copy)]
pub struct Inside<'f, 'o, 'c> {
    pub first: Copied<'f>,
    pub others: &'o [Copied<'c>],
    pub point: Point,
}

/// Where a declaration is put into a module.
#[derive(Clone, Copy)]
pub struct Target<'a> {
    pub source: &'a [u8],
    /// Where the export list of the module begins, if it has one.
    pub exported: Option<usize>,
    /// The names of types that are added to the export list.
    pub names: &'a [Span],
    /// The byte at which the declaration is put in.
    pub at: usize,
}
