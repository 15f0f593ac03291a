//! Standard output, which a quiet run doesn't write.

use std::io;
use std::io::{Stdout, Write};

/// Standard output, or nothing.
#[derive(Drop)]
pub(crate) enum StandardOutput {
    Stdout(Stdout),
    Nothing,
}

impl StandardOutput {
    /// Returns standard output, or nothing for a quiet run.
    pub(crate) fn of(rt: &HostRuntime, is_quiet: bool) -> StandardOutput {
        if is_quiet {
            StandardOutput::Nothing
        } else {
            StandardOutput::Stdout(rt.stdout())
        }
    }
}

impl Write for StandardOutput {
    fn write(&mut self, buf: &[u8]) -> io::Result<usize> {
        match self {
            StandardOutput::Stdout(stdout) => stdout.write(buf),
            StandardOutput::Nothing => Ok(buf.len()),
        }
    }

    fn flush(&mut self) -> io::Result<()> {
        match self {
            StandardOutput::Stdout(stdout) => stdout.flush(),
            StandardOutput::Nothing => Ok(()),
        }
    }
}
