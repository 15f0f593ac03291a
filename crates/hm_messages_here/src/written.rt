//! Names as they are written.

use hm_lex::Place;

/// A name as it is written in a source.
#[derive(Clone, Copy)]
pub struct WrittenName<'a> {
    /// The name, with its qualifier if it has one.
    pub text: &'a str,
    pub place: Place,
    /// Whether it binds or declares something there.
    pub binds: bool,
}
