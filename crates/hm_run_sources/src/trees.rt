//! Whether a run drops its trees.

// Why: docs/DECISIONS.md, "Trees that are left".
/// What a run does with the trees of its modules after it has its text.
#[derive(Clone, Copy, Debug, PartialEq, Eq)]
pub enum Trees {
    /// Drops them.
    Dropped,
    /// Leaves them in memory. This saves time in a program that ends with the run. In any other program it is a leak.
    Left,
}
