//! Where places of a text are after a part of it is replaced.
ghost use Rattle.std.specs.Prelude.{◌≡◌, ◌+◌, IsTrue, false};
ghost use Rattle.hm_service_fixes.specs.Moves.{IsMoved, MovesWith};

use hm_lex::Place;

/// A replaced part of a text: where it begins and ends, and where it ends in the new text.
#[derive(Clone, Copy, Debug, PartialEq, Eq)]
pub struct Replacement {
    pub start: Place,
    /// The place after the part.
    pub end: Place,
    /// The place after what comes in its place.
    pub new_end: Place,
}

/// Returns whether two numbers differ by as much as two others.
fn is_shifted(one: u32, other: u32, old: u32, new: u32) -> bool
    ensures yes { IsTrue result → other + old ≡ one + new }
    ensures no { result ≡ false → ¬ (other + old ≡ one + new) }
{
    u64::from(other) + u64::from(old) == u64::from(one) + u64::from(new)
}

/// Returns whether a place is as far after the new end of a part as another one is after its old end.
fn moves_with(end: Place, new_end: Place, place: Place, moved: Place) -> bool
    ensures yes { IsTrue result → MovesWith end new_end place moved }
    ensures no { result ≡ false → ¬ (MovesWith end new_end place moved) }
{
    if place.line == end.line {
        if place.column < end.column {
            return false;
        }
        if moved.line != new_end.line {
            return false;
        }
        return is_shifted(place.column, moved.column, end.column, new_end.column);
    }
    if place.line < end.line {
        return false;
    }
    if moved.column != place.column {
        return false;
    }
    is_shifted(place.line, moved.line, end.line, new_end.line)
}

/// Returns whether a place of a text is at another place after a part of the text is replaced.
pub(crate) fn is_moved(replaced: Replacement, place: Place, moved: Place) -> bool
    ensures yes { IsTrue result → IsMoved replaced place moved }
    ensures no { result ≡ false → ¬ (IsMoved replaced place moved) }
{
    if place.is_before(replaced.start) && moved == place {
        return true;
    }
    moves_with(replaced.end, replaced.new_end, place, moved)
}
