//! Parses the command line of the program.
//!
//! `clap` reads the words, and its contracts don't say what they mean. The only proved fact is that the number of workers is allowed.
#![tactic(auto)]

ghost use Rattle.std.specs.Prelude.{◌<◌, ◌≤◌, IfOk};

use clap::builder::ValueParser;
use clap::{Arg, ArgAction, ArgMatches, Command, Error};
use std::alloc::{AllocError, Global};

/// The options of a command line.
#[derive(Debug, Drop)]
pub struct CommandLine {
    /// The number of workers, 1 to 16.
    pub workers: usize,
    /// Whether the journal follows the report.
    pub journal: bool,
    /// Whether to print the import plan and check nothing.
    pub plan: bool,
    /// The place FILE:LINE:COLUMN whose name is explained in place of a report, if one is given.
    pub at: Option<String>,
    /// Whether to write messages that explain the report to standard error.
    pub explain: bool,
    /// Whether these messages, or what is at a place, are JSON objects.
    pub json: bool,
    /// Whether the report is JSON objects.
    pub listed: bool,
    /// Whether messages have colours.
    pub colour: Colour,
    /// Whether nothing is written to standard output.
    pub quiet: bool,
    /// The name of standard input in messages, if it has one.
    pub stdin_name: Option<String>,
    /// The words for the sources, in order, at least one. `-` is standard input, and is the only word if there is none.
    pub files: Vec<String>,
    /// Whether a word names a source.
    pub names_files: bool,
}

/// Whether messages have colours.
#[derive(Debug, Clone, Copy, PartialEq, Eq)]
pub enum Colour {
    /// If standard error is a terminal, unless NO_COLOR is set and not empty.
    Auto,
    Always,
    Never,
}

/// The largest number of workers.
const MOST_WORKERS: usize = 16;

/// The number of workers if no option sets it.
const WORKERS: usize = 4;

/// The formats of messages.
const MESSAGE_FORMATS: [&str; 2] = ["human", "json"];

/// The formats of reports.
const REPORT_FORMATS: [&str; 2] = ["text", "json"];

/// The words for `Colour`.
const COLOURS: [&str; 3] = ["auto", "always", "never"];

// Why: docs/DECISIONS.md, "Version".
/// The program's version, whether it is proved, and by which logic.
const VERSION: &str = "0.1 (proved, logic dac8208d650f15bf)";

/// The end of the help: an example of three sources with its report, and the exit statuses.
const EXAMPLE: &str = "\
Layout isn't read: write braces and semicolons. There are no classes.

Example, of three files with a line each:
  module A where { pair x = (x, x) }
  module B where { twice f = f f }
  module C where { import B ; y = twice }
What is printed, with status 1:
  module A
    val pair = A.pair :: a -> (a, a)
  faulty B
    1:18 type twice
  skipped C
    by B
  3 modules: 1 good, 1 faulty, 1 skipped

Exit statuses:
  0  all modules are good, or a plan, what a place has, the help or the version was printed
  1  a module is faulty or skipped, or no name is at the place of --at
  2  the sources or the words of the command line are refused
  3  no memory
  4  a source can't be found or read, or the output can't be written
  5  mixed: the workers' records contradict each other
  6  no worker: no thread could be started";

/// Returns an option without a value.
fn flag<'a>(alloc: Global, name: &'a str, help: &'a str) -> Arg<'a> {
    Arg::new(alloc, name)
        .long(name)
        .help(help)
        .action(ArgAction::SetTrue)
}

/// Returns an option without a value that a letter names too.
fn lettered<'a>(alloc: Global, letter: char, name: &'a str, help: &'a str) -> Arg<'a> {
    flag(alloc, name, help).short(letter)
}

/// Returns an option with a value.
fn valued<'a>(alloc: Global, name: &'a str, value: &'a str, help: &'a str) -> Arg<'a> {
    Arg::new(alloc, name)
        .long(name)
        .value_name(value)
        .help(help)
}

/// Returns the option for the number of workers.
fn jobs<'a>(alloc: Global) -> Arg<'a> {
    valued(
        alloc,
        "jobs",
        "N",
        "How many workers check modules at the same time, 1 to 16; 4 if it isn't given",
    )
    .short('j')
    .value_parser(ValueParser::Unsigned(1, MOST_WORKERS as u64))
}

/// Returns the option for the format of messages and of what is at a place.
fn message_format<'a>(alloc: Global) -> Arg<'a> {
    valued(
        alloc,
        "message-format",
        "FORMAT",
        "How messages, and what --at prints, are written: human, or json, a JSON object on a line each; json implies --explain",
    )
    .value_parser(ValueParser::Names(&MESSAGE_FORMATS))
}

/// Returns the option for the format of the report.
fn report_format<'a>(alloc: Global) -> Arg<'a> {
    valued(
        alloc,
        "report-format",
        "FORMAT",
        "How the report is written: text, or json, a JSON object for each module on a line each; json leaves the journal out",
    )
    .value_parser(ValueParser::Names(&REPORT_FORMATS))
}

/// Returns the option for colours.
fn colour_option<'a>(alloc: Global) -> Arg<'a> {
    valued(
        alloc,
        "color",
        "WHEN",
        "When messages have colours: auto, always or never; auto is on a terminal, if NO_COLOR isn't set",
    )
    .value_parser(ValueParser::Names(&COLOURS))
}

/// Returns the argument for the words of sources.
fn sources<'a>(alloc: Global) -> Arg<'a> {
    Arg::new(alloc, "FILE")
        .help(
            "A source each, of any number of modules and 1,048,576 bytes at most; a folder means the files *.hs in it, @LIST the names in the file LIST, and - standard input, which is read if there is no FILE",
        )
        .action(ArgAction::Append)
}

/// Returns the program with its help, without arguments.
fn program<'a>(alloc: Global) -> Command<'a> {
    Command::new(alloc, "hmc")
        .version(VERSION)
        .about(
            "Checks the names and types of modules of Haskell 98 with explicit braces, no classes",
        )
        .after_help(EXAMPLE)
}

/// Returns the program with its arguments.
fn command<'a>(alloc: Global) -> Result<Command<'a>, AllocError> {
    program(alloc)
        .arg(jobs(alloc))?
        .arg(flag(
            alloc,
            "journal",
            "Print the journal of the build after the report",
        ))?
        .arg(flag(alloc, "plan", "Print the import plan and check nothing"))?
        .arg(valued(
            alloc,
            "at",
            "PLACE",
            "Print no report, but what the name at PLACE means and where it is bound; PLACE is FILE:LINE:COLUMN, of a FILE that is read",
        ))?
        .arg(lettered(
            alloc,
            'e',
            "explain",
            "Write to standard error, for each fault, FILE:LINE:COLUMN, what is wrong in plain words, and the line with a mark",
        ))?
        .arg(message_format(alloc))?
        .arg(report_format(alloc))?
        .arg(colour_option(alloc))?
        .arg(lettered(
            alloc,
            'q',
            "quiet",
            "Write nothing to standard output; the exit status has the verdict",
        ))?
        .arg(valued(
            alloc,
            "stdin-name",
            "NAME",
            "What standard input is called in messages; <stdin> if it isn't given",
        ))?
        .arg(sources(alloc))
}

/// Returns the words for the sources, or that for standard input if there are none.
fn files(alloc: Global, matches: &ArgMatches<'_>) -> Result<Vec<String>, AllocError> {
    let mut files = Vec::new(alloc);
    if let Some(names) = matches.get_strs("FILE") {
        for name in names {
            files.push(String::from_str(alloc, name)?)?;
        }
    }
    if files.is_empty() {
        files.push(String::from_str(alloc, "-")?)?;
    }
    Ok(files)
}

/// Returns the value of an option, if it is given.
fn value_of(
    alloc: Global,
    matches: &ArgMatches<'_>,
    name: &str,
) -> Result<Option<String>, AllocError> {
    match matches.get_str(name) {
        Some(name) => Ok(Some(String::from_str(alloc, name)?)),
        None => Ok(None),
    }
}

/// Returns when messages have colours.
fn colour_of(matches: &ArgMatches<'_>) -> Colour {
    match matches.get_str("color") {
        Some("always") => Colour::Always,
        Some("never") => Colour::Never,
        _ => Colour::Auto,
    }
}

/// Returns the number of workers. `clap` has refused numbers that aren't allowed.
fn workers(matches: &ArgMatches<'_>) -> usize
    ensures least { 0 < result }
    ensures most { result ≤ 16 }
{
    matches
        .get_one::<usize>("jobs")
        .unwrap_or(WORKERS)
        .clamp(1, MOST_WORKERS)
}

// Why: docs/DECISIONS.md, "Version".
/// Parses the words of a command line. The first is the program's name.
///
/// # Errors
///
/// The error has the help or the version if these were requested. Otherwise it says why the words are refused, or that memory ran out.
pub fn command_line(alloc: Global, words: &[String]) -> Result<CommandLine, Error>
    ensures least { IfOk result (λ asked. 0 < asked.workers) }
    ensures most { IfOk result (λ asked. asked.workers ≤ 16) }
{
    let matches = command(alloc)?.try_get_matches_from(words)?;
    let json = matches.get_str("message-format") == Some("json");
    let listed = matches.get_str("report-format") == Some("json");
    Ok(CommandLine {
        workers: workers(&matches),
        journal: matches.get_flag("journal"),
        plan: matches.get_flag("plan"),
        at: value_of(alloc, &matches, "at")?,
        explain: json || matches.get_flag("explain"),
        json,
        listed,
        colour: colour_of(&matches),
        quiet: matches.get_flag("quiet"),
        stdin_name: value_of(alloc, &matches, "stdin-name")?,
        files: files(alloc, &matches)?,
        names_files: matches.contains_id("FILE"),
    })
}
