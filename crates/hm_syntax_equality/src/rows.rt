//! Rows of parts, compared one by one.

ghost use Rattle.std.specs.Prelude.{◌≡◌, ◌↔◌, IsTrue};

/// Parts that can be compared.
pub(crate) trait Part {
    /// Returns whether both are the same.
    fn is_same(&self, other: &Self) -> bool
        ensures { IsTrue result ↔ (self.now ≡ other.now) };
}

/// Returns whether two rows have the same parts in the same order.
pub(crate) fn are_same<P: Part>(lefts: &[P], rights: &[P]) -> bool
    ensures { IsTrue result ↔ (lefts.now ≡ rights.now) }
{
    if lefts.len() != rights.len() {
        return false;
    }
    for i in 0..lefts.len() {
        if !lefts[i].is_same(&rights[i]) {
            return false;
        }
    }
    true
}
