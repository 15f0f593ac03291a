//! Runs that print what is at a place.
ghost use Rattle.std.specs.Prelude.{All};
ghost use Rattle.hm_run_io.specs.Watching.{IsFresh};

use crate::names::{name_of, stdin_name};
use crate::quiet::StandardOutput;
use hm_build::Options;
use hm_build_place_runs::{AskedPlace, PlaceFormat, PlaceQuestion, run_place};
use hm_run_io::{RunFault, Watched};
use hm_run_sources::{Status, Trees};
use hmc_words::CommandLine;
use std::alloc::{AllocError, Global};
use std::fmt;
use std::fmt::{Display, Formatter};
use std::io::Read;
use std::sync::Wait;
use std::thread::Threads;

/// Why the word for a place is refused.
#[derive(Debug, Clone, Copy, PartialEq, Eq)]
pub(crate) enum PlaceFault {
    /// It isn't FILE:LINE:COLUMN.
    Form,
    /// Its file isn't one of the sources.
    NoSource,
    Memory,
}

impl Display for PlaceFault {
    fn fmt<W: fmt::Write>(&self, f: &mut Formatter<W>) -> fmt::Result {
        match self {
            PlaceFault::Form => f.write_str("not FILE:LINE:COLUMN, with numbers from 1"),
            PlaceFault::NoSource => f.write_str("this file isn't among the sources"),
            PlaceFault::Memory => f.write_str("no memory"),
        }
    }
}

impl From<AllocError> for PlaceFault {
    fn from(_error: AllocError) -> PlaceFault {
        PlaceFault::Memory
    }
}

/// Returns a number from 1.
fn number_in(word: &str) -> Option<u32> {
    match word.parse::<u32>() {
        Ok(number) if number > 0 => Some(number),
        _ => None,
    }
}

/// Returns the number of the source with this name, as the command line or messages have it.
fn source_in(sources: &[String], stdin_name: Option<&str>, file: &str) -> Option<usize> {
    for source in 0..sources.len() {
        let name = sources[source].as_str();
        if name == file || name_of(name, stdin_name) == file {
            return Some(source);
        }
    }
    None
}

/// Returns the format of what is printed: a JSON object if messages are such objects.
fn format_of(asked: &CommandLine) -> PlaceFormat {
    if asked.json {
        PlaceFormat::Object
    } else {
        PlaceFormat::Prose
    }
}

/// Returns the question for the place in a word FILE:LINE:COLUMN. `names` are those of the sources in messages.
pub(crate) fn question_in(
    names: Vec<Vec<u8>>,
    sources: &[String],
    asked: &CommandLine,
    word: &str,
) -> Result<PlaceQuestion, PlaceFault> {
    let Some((front, column)) = word.rsplit_once(':') else {
        return Err(PlaceFault::Form);
    };
    let Some((file, line)) = front.rsplit_once(':') else {
        return Err(PlaceFault::Form);
    };
    let (Some(line), Some(column)) = (number_in(line), number_in(column)) else {
        return Err(PlaceFault::Form);
    };
    let Some(source) = source_in(sources, stdin_name(asked), file) else {
        return Err(PlaceFault::NoSource);
    };
    Ok(PlaceQuestion {
        names,
        source,
        line,
        column: column as usize,
        format: format_of(asked),
    })
}

/// Prints what is at a place of the sources of these readers, or why they are refused.
pub(crate) fn print_place<T: Threads + Wait + Sync, R: Read + Drop>(
    rt: &HostRuntime,
    threads: &T,
    mut readers: Vec<Watched<R>>,
    question: PlaceQuestion,
    asked: &CommandLine,
) -> Result<Status, RunFault>
    requires { All IsFresh readers.items }
{
    let options = Options {
        workers: asked.workers,
        journal: false,
        trees: Trees::Left,
    };
    let mut writer = Watched::new(StandardOutput::of(rt, asked.quiet));
    run_place(
        threads,
        rt.alloc(),
        readers.as_mut_slice(),
        &mut writer,
        AskedPlace { options, question },
    )
}
