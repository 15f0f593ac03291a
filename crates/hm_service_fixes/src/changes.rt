//! Changes of sources that may remove a fault.
use crate::moves::Replacement;
use hm_lex::Place;

/// A change of a source of a held set, and the fault that is to go: the report's word for it, and its place in the text before the change.
#[derive(Clone, Copy, Debug)]
pub struct SourceChange<'a> {
    /// The number of the source.
    pub source: usize,
    pub kind: &'a str,
    pub place: Place,
    pub replaced: Replacement,
}
