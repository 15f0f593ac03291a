//! What is at a place of a source, before it is text.

use hm_messages_json::{Position, Range};
use hm_uses::NameKind;

/// A place of a source. If it isn't in the source, it has no position.
#[derive(Debug, Drop)]
pub struct SourceSpot {
    /// The name of the source's file, as it is shown.
    pub file: String,
    pub position: Option<Position>,
}

/// Where a name is bound.
#[derive(Debug, Drop)]
pub enum Bound {
    /// At this place.
    At(SourceSpot),
    /// In the module with this name, which isn't one of the sources.
    In(String),
    /// It is a prefix of qualified names.
    Prefix,
    Nowhere,
    /// It means two entities or more.
    Ambiguous,
}

/// The type that a name has in its module.
#[derive(Debug, Drop)]
pub enum DeclaredType {
    /// A name of its kind or meaning has none.
    Untyped,
    /// The principal type.
    Principal(String),
    /// No type is found, and the module with this name doesn't export the name.
    Hidden(String),
    /// No type is found, and the module with this name isn't good.
    NotGood(String),
}

/// A definition at top level, with its type.
#[derive(Debug, Drop)]
pub struct Definition {
    pub name: String,
    pub own: String,
}

/// The type of a name at its place.
#[derive(Debug, Drop)]
pub struct PlaceType {
    pub text: String,
    /// The definition that has the name, if it isn't a pattern binding. Its type has the same variables.
    pub definition: Option<Definition>,
}

/// The type that a name has at its place, if one is found.
#[derive(Debug, Drop)]
pub enum HereType {
    /// A name of its kind or meaning has none, or no type of this use is found.
    Untyped,
    /// The type with which a local variable is bound or used.
    Local(PlaceType),
    /// The type with which a declared or imported name is used.
    Used(PlaceType),
    /// No type of a local variable is found.
    Unknown,
}

/// A name at a place.
#[derive(Debug)]
pub struct PlaceName {
    pub kind: NameKind,
    /// The name as it is written.
    pub text: String,
    /// From its first byte to its last, if these are in the source.
    pub range: Option<Range>,
    pub bound: Bound,
    pub declared: DeclaredType,
    pub here: HereType,
}

impl Drop for PlaceName {
    // Why: docs/DECISIONS.md, "Drops".
    fn drop(self) {
        let PlaceName {
            kind: _,
            text: _text,
            range: _,
            bound: _bound,
            declared: _declared,
            here: _here,
        } = self;
    }
}

/// What a module has at a place.
#[derive(Debug, Drop)]
pub enum PlaceItem {
    /// A name.
    Name(PlaceName),
    /// A name of the module with this name, which is skipped.
    Skipped(String),
}

/// What is at a place of a source.
#[derive(Debug, Drop)]
pub struct PlaceFound {
    /// The name of the source's file, as it is shown.
    pub file: String,
    /// The line, from 1.
    pub line: u32,
    /// The column in characters, from 1.
    pub column: usize,
    /// The names there, in order.
    pub items: Vec<PlaceItem>,
}
