//! What a name stands for at its place.

/// What a name stands for at its place: the namespace in which it is looked up, and whether it is in an export list.
#[derive(Clone, Copy)]
pub(crate) enum Role {
    /// A variable of an expression.
    Variable,
    /// A variable of an export list.
    ExportedVariable,
    /// A constructor of an expression or a pattern.
    Constructor,
    /// A type constructor of a type or an export list.
    TypeConstructor,
    /// A type variable.
    TypeVariable,
}
