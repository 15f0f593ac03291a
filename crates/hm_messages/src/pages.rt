//! Sources as messages show them.
ghost use Rattle.std.specs.Prelude.{◌≡◌};

use crate::heading::MessageFormat;
use crate::starts::SourceModules;
use hm_messages_excerpts::SourceLines;

/// A source as messages show it: the name of its file, its lines, and its modules.
#[derive(Drop)]
pub struct Page<'a> {
    pub file: &'a [u8],
    pub lines: SourceLines<'a>,
    pub modules: SourceModules<'a>,
    pub ghost same: { modules.source ≡ lines },
}

/// Sources as messages show them, in order, and the form of the messages.
#[derive(Drop)]
pub struct Pages<'a> {
    pub format: MessageFormat,
    pub items: Vec<Page<'a>>,
}
