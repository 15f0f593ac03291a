//! Limits for the sizes of types.

// Why: docs/DECISIONS.md, "Nodes of types".
/// Limits for the types that the check of a module makes. Synonyms and inference can make types that are exponential in the size of the source.
/// A type above a limit is refused like a failed allocation.
#[derive(Clone, Copy)]
pub struct TypeLimits {
    /// The largest number of nested constructors in a type.
    pub levels: usize,
    /// The number of nodes of all types: counted once for those that synonyms stand for, and again for those of inference.
    pub nodes: usize,
}

/// The limits for calls without limits of their own: more than fits in the memory of most machines.
pub const WIDE_LIMITS: TypeLimits = TypeLimits {
    levels: 1 << 20,
    nodes: 1 << 27,
};

/// Limits under which no synonym is expanded.
pub const NO_SYNONYMS: TypeLimits = TypeLimits {
    levels: 0,
    nodes: 0,
};
