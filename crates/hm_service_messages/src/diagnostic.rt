//! Messages of a run as values.
use hm_messages_json::{Level, Position, Range};

/// A change of a source that a diagnostic speaks of: a text in place of a range.
#[derive(Debug, Drop)]
pub struct Edit {
    pub start: Position,
    /// The position after the text that goes.
    pub end: Position,
    /// The text that comes in its place.
    pub text: String,
    /// Whether the checker accepted the source with all edits of the diagnostic.
    pub is_checked: bool,
}

/// A message about a range of a source.
#[derive(Debug, Drop)]
pub struct Diagnostic {
    /// The number of the source.
    pub source: usize,
    pub start: Position,
    /// The position after the marked text.
    pub end: Position,
    pub level: Level,
    /// The report's word for the fault, or the word for the kind of note.
    pub kind: String,
    /// What is wrong, in a few words.
    pub text: String,
    /// The broken rule, or something that may help, if there is more to say.
    pub hint: Option<String>,
    /// The module that it is about, if known.
    pub module: Option<String>,
    /// The name that it is about, if any.
    pub name: Option<String>,
    /// The position of another place that the text names, if it names one.
    pub other: Option<Position>,
    /// The type that is expected there, if two types differ.
    pub expected: Option<String>,
    /// The type that is there, if two types differ.
    pub actual: Option<String>,
    /// The whole part of a definition that it is about, if it is about one.
    pub part: Option<Range>,
    /// The other part that it is about, if there are two.
    pub second: Option<Range>,
    /// The changes of the source that it speaks of, in order.
    pub edits: Vec<Edit>,
}

/// The messages of a run, with the numbers of reported errors and of skipped modules.
#[derive(Debug, Drop)]
pub struct Told {
    pub diagnostics: Vec<Diagnostic>,
    pub errors: usize,
    pub skipped: usize,
}
