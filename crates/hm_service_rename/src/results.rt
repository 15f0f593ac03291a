//! The parameters of a rename, and its result.
use hm_uses_references::Reference;

/// A new name for the name at a place of a source. The column counts bytes, from 1.
#[derive(Clone, Copy)]
pub struct Rename<'a> {
    pub source: usize,
    pub line: u32,
    pub column: usize,
    pub name: &'a str,
}

/// A place of a source. The column counts bytes, from 1.
#[derive(Clone, Copy)]
pub struct SourcePlace {
    pub source: usize,
    pub line: u32,
    pub column: usize,
}

/// Why a name isn't renamed.
#[derive(Clone, Copy, Debug, PartialEq, Eq)]
pub enum RenameRefusal {
    /// The check isn't of all sources as they are now, or it skips a module: some names aren't known.
    NotWhole,
    /// No name is at the place.
    NoName,
    /// No name of the set that means the same is bound there.
    NotBound,
    /// The new text isn't a name of a variable, a constructor or a type without a qualifier.
    NotAName,
    /// With the new name, a source can't be read.
    NotRead,
    /// The checker doesn't accept the set with the new name. No clause says more of it.
    NotSame,
}

/// The places where the new name goes, in the order of sources and of places, or why there are none.
#[derive(Debug, Drop)]
pub enum Renamed {
    Edits(Vec<Reference>),
    Refused(RenameRefusal),
}

/// A name that can be renamed.
#[derive(Debug, Drop)]
pub struct Target {
    /// Where it is written, without its qualifier.
    pub reference: Reference,
    /// Its text, without its qualifier.
    pub name: String,
}

/// The name at a place, or why a rename of it is refused, whatever its new name is.
#[derive(Debug, Drop)]
pub enum Prepared {
    Renamable(Target),
    Refused(RenameRefusal),
}
