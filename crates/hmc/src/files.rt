//! Sources in files and on standard input.
ghost use Rattle.std.specs.Io.{ReadsAtMost};

use crate::names::STDIN;
use std::alloc::Global;
use std::cell::Cell;
use std::fs::File;
use std::io;
use std::io::{ErrorKind, Read, Stdin};

// Why: docs/DECISIONS.md, "Files that are open".
/// How many files stay open from the start. A later one is opened once to see that it can be, and again when it is read.
const MOST_OPEN: usize = 256;

/// Why a source couldn't be read.
#[derive(Clone, Copy)]
pub(crate) struct Failure {
    /// The number of the source, from 0.
    pub source: usize,
    pub kind: ErrorKind,
}

/// The device of a source.
#[derive(Drop)]
enum Input {
    File(File),
    Stdin(Stdin),
    /// The name of a file that isn't open yet.
    Later(String),
    /// All was read.
    Ended,
}

/// An open source that keeps the reason of the last failed read.
#[derive(Drop)]
pub(crate) struct OpenSource<'a> {
    rt: &'a HostRuntime,
    input: Input,
    /// Its number, from 0.
    number: usize,
    /// Why the last read of any source failed, if it did.
    failure: &'a Cell<Option<Failure>>,
}

/// Opens the file with this name, or sees that it can be opened.
fn open_file(rt: &HostRuntime, name: &str, number: usize) -> io::Result<Input> {
    let file = File::open(rt, name)?;
    if number < MOST_OPEN {
        return Ok(Input::File(file));
    }
    let alloc: Global = rt.alloc();
    Ok(Input::Later(String::from_str(alloc, name)?))
}

impl<'a> OpenSource<'a> {
    /// Opens the source with this name.
    pub(crate) fn open(
        rt: &'a HostRuntime,
        name: &str,
        number: usize,
        failure: &'a Cell<Option<Failure>>,
    ) -> io::Result<OpenSource<'a>> {
        let input = if name == STDIN {
            Input::Stdin(rt.stdin())
        } else {
            open_file(rt, name, number)?
        };
        Ok(OpenSource {
            rt,
            input,
            number,
            failure,
        })
    }

    /// Reads from the device, and closes it at its end.
    fn read_input(&mut self, buf: &mut [u8]) -> io::Result<usize>
        ensures { ReadsAtMost result buf.new }
    {
        if let Input::Later(name) = &self.input {
            let file = File::open(self.rt, name.as_str())?;
            self.input = Input::File(file);
        }
        let count = match &mut self.input {
            Input::File(file) => file.read(buf)?,
            Input::Stdin(stdin) => stdin.read(buf)?,
            Input::Later(_) | Input::Ended => 0,
        };
        if count == 0 && !buf.is_empty() {
            self.input = Input::Ended;
        }
        Ok(count)
    }
}

impl Read for OpenSource<'_> {
    fn read(&mut self, buf: &mut [u8]) -> io::Result<usize> {
        let answer = self.read_input(buf);
        let failure = match &answer {
            Ok(_) => None,
            Err(error) => Some(Failure {
                source: self.number,
                kind: error.kind(),
            }),
        };
        self.failure.set(failure);
        answer
    }
}
