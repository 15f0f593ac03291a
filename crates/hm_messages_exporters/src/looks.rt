//! How much is searched for names that aren't in scope.

/// The number of entries that are searched in a run. A set of thousands of modules takes some tenths of a second with it.
const MOST: usize = 1_000_000;

/// How many entries may still be searched in a run.
///
/// Its functions have no contracts: each name that is found is so, and no message says that a search found nothing.
#[derive(Clone, Copy)]
pub struct Looks {
    left: usize,
}

impl Looks {
    /// Returns the entries that are searched in a run.
    pub fn of_run() -> Looks {
        Looks { left: MOST }
    }

    /// Takes so many entries. Returns whether they were left.
    pub fn take(&mut self, count: usize) -> bool {
        match self.left.checked_sub(count) {
            Some(left) => {
                self.left = left;
                true
            }
            None => {
                self.left = 0;
                false
            }
        }
    }
}
