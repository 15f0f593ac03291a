//! The data of a message.
use hm_messages_excerpts::Columns;

/// Whether a message is about an error, or is a note on one.
#[derive(Clone, Copy, Debug, PartialEq, Eq)]
pub enum Level {
    Error,
    Note,
}

/// A position in a source.
#[derive(Clone, Copy, Debug, PartialEq, Eq)]
pub struct Position {
    /// The line, from 1.
    pub line: usize,
    pub columns: Columns,
}

/// A range of a source.
#[derive(Clone, Copy, Debug, PartialEq, Eq)]
pub struct Range {
    pub start: Position,
    /// The position after the range.
    pub end: Position,
}

/// A change of a source that a message speaks of: a text in place of a range.
#[derive(Clone, Copy, Debug)]
pub struct Edit<'a> {
    pub start: Position,
    /// The position after the text that goes.
    pub end: Position,
    /// The text that comes in its place.
    pub text: &'a str,
    /// Whether the checker accepted the source with all edits of the message.
    pub is_checked: bool,
}

/// A message about a range of a source.
#[derive(Clone, Copy, Debug)]
pub struct Message<'a> {
    /// The name of the source's file.
    pub file: &'a str,
    pub start: Position,
    /// The position after the marked text.
    pub end: Position,
    pub level: Level,
    /// The report's word for the fault, or the word for the kind of note.
    pub kind: &'a str,
    /// The module that it is about, if known.
    pub module: Option<&'a str>,
    /// The name that it is about, if any.
    pub name: Option<&'a str>,
    /// The position of another place that the text names, if it names one.
    pub other: Option<Position>,
    /// The whole part of a definition that it is about, if it is about one.
    pub part: Option<Range>,
    /// The other part that it is about, if there are two.
    pub second: Option<Range>,
    /// What is wrong, in a few words.
    pub text: &'a str,
    /// The broken rule, or something that may help, if there is more to say.
    pub hint: Option<&'a str>,
    /// The type that is expected there, if two types differ.
    pub expected: Option<&'a str>,
    /// The type that is there, if two types differ.
    pub actual: Option<&'a str>,
    /// The changes of the source that it speaks of, in order.
    pub edits: &'a [Edit<'a>],
}
