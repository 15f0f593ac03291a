//! The options of a run.

use hm_build_messages::MessageOptions;
use hm_run_sources::Trees;

/// The options of a run without messages.
#[derive(Clone, Copy, Debug)]
pub struct Options {
    /// The number of workers that check modules, 1 to 16.
    pub workers: usize,
    /// Whether the journal of the build follows the report.
    pub journal: bool,
    /// Whether the modules' trees are dropped after the text is made.
    pub trees: Trees,
}

/// The options of a run, and in which forms it writes the report and messages.
#[derive(Drop)]
pub struct RunOptions {
    pub options: Options,
    /// How faults are explained, if they are.
    pub messages: Option<MessageOptions>,
    /// The names of the sources' files, in order, if the report is JSON objects. A source without a name is standard input.
    pub listed: Option<Vec<String>>,
}
