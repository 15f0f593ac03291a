//! The options of messages.

use hm_messages::MessageFormat;

/// How faults are explained: the names of the sources' files, in order, and the form of the messages. A source without a name is standard
/// input.
#[derive(Drop)]
pub struct MessageOptions {
    pub names: Vec<Vec<u8>>,
    pub format: MessageFormat,
}
