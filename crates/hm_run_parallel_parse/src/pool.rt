//! The threads that make modules.

/// The number of threads, including the caller's, and the bytes of stack of each.
#[derive(Clone, Copy, Debug, PartialEq, Eq)]
pub struct Pool {
    pub threads: usize,
    pub stack: usize,
}
