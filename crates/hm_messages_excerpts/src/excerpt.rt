//! The shown part of a line.

/// The shown part of a line around a place.
#[derive(Clone, Copy, Debug)]
pub struct Excerpt<'a> {
    /// The part before the place.
    pub left: &'a [u8],
    /// The part from the place on.
    pub right: &'a [u8],
    /// Whether the line begins before the shown part.
    pub is_cut_left: bool,
    /// Whether the line continues after the shown part.
    pub is_cut_right: bool,
}
