//! The names of the sources that the words of a command line stand for.
//!
//! A folder stands for its files `*.hs`, and `@FILE` for the names in a file. Any other word is the name of a source.

use hmc_words::CommandLine;
use std::alloc::{AllocError, AllocFailed};
use std::fmt::{Display, Formatter};
use std::fs::{DirEntry, File, FileType};
use std::io::{ErrorKind, Read};
use std::{fmt, fs, io};

/// The word for standard input.
pub(crate) const STDIN: &str = "-";

/// The first character of a word that names a list of sources.
const LIST: char = '@';

/// The end of a source's name in a folder.
const ENDING: &str = ".hs";

/// How many folders deep a file may be, counted from the folder that the command line names.
const MOST_LEVELS: usize = 16;

/// How many folders a word may stand for.
const MOST_FOLDERS: usize = 65_536;

/// The longest list of names, in bytes.
const MOST_LISTED: u64 = 16_777_216;

/// Why a word stands for no sources.
#[derive(Debug, Clone, Copy, PartialEq, Eq)]
pub(crate) enum Reason {
    /// The system's reason.
    Device(ErrorKind),
    /// A folder has no file `*.hs`.
    NoSource,
    /// A folder has folders more than 16 deep, or more than 65,536 of them.
    TooDeep,
    /// A list isn't text, or has more than 16 MiB.
    NotText,
    Memory,
}

impl Display for Reason {
    fn fmt<W: fmt::Write>(&self, f: &mut Formatter<W>) -> fmt::Result {
        match self {
            Reason::Device(kind) => write!(f, "{kind}"),
            Reason::NoSource => f.write_str("no file *.hs in this folder"),
            Reason::TooDeep => f.write_str("folders more than 16 deep, or more than 65,536"),
            Reason::NotText => f.write_str("a list of sources is text of at most 16 MiB"),
            Reason::Memory => f.write_str("no memory"),
        }
    }
}

impl From<AllocError> for Reason {
    fn from(_error: AllocError) -> Reason {
        Reason::Memory
    }
}

impl<T: Drop> From<AllocFailed<T>> for Reason {
    fn from(_error: AllocFailed<T>) -> Reason {
        Reason::Memory
    }
}

impl From<io::Error> for Reason {
    fn from(error: io::Error) -> Reason {
        match error.kind() {
            ErrorKind::OutOfMemory => Reason::Memory,
            kind => Reason::Device(kind),
        }
    }
}

/// Why the names of the sources can't be found.
#[derive(Debug, Drop)]
pub(crate) struct NamesFault {
    /// The number of the word on the command line, from 0.
    pub word: usize,
    pub reason: Reason,
}

/// A folder that is to be read.
#[derive(Drop)]
struct Folder {
    path: String,
    /// How many folders deep it is, below the one of the command line.
    level: usize,
}

/// Returns whether an entry is what a link leads to, or itself, as a file.
fn is_file(rt: &HostRuntime, entry: &DirEntry<HostRuntime>, kind: FileType) -> bool {
    if kind.is_symlink() {
        match fs::metadata(rt, entry.path()) {
            Ok(found) => found.is_file(),
            Err(_) => true,
        }
    } else {
        !kind.is_dir()
    }
}

/// Adds the sources of a folder to names, and its folders to those that are to be read. A link to a folder isn't followed.
fn read_folder(
    rt: &HostRuntime,
    folder: &Folder,
    names: &mut Vec<String>,
    left: &mut Vec<Folder>,
) -> Result<(), Reason> {
    for entry in fs::read_dir(rt, folder.path.as_str())? {
        let entry = entry?;
        let kind = entry.file_type()?;
        if entry.file_name().starts_with('.') {
            continue;
        }
        let path = String::from_str(rt.alloc(), entry.path().as_str())?;
        if kind.is_dir() {
            left.push(Folder {
                path,
                level: folder.level.saturating_add(1),
            })?;
        } else if entry.file_name().ends_with(ENDING) && is_file(rt, &entry, kind) {
            names.push(path)?;
        }
    }
    Ok(())
}

/// Returns the sources of a folder and of the folders in it, in the order of their paths' bytes.
fn sources_of_folder(rt: &HostRuntime, word: &str) -> Result<Vec<String>, Reason> {
    let alloc = rt.alloc();
    let mut names = Vec::new(alloc);
    let mut left = Vec::new(alloc);
    left.push(Folder {
        path: String::from_str(alloc, word)?,
        level: 0,
    })?;
    for _ in 0..MOST_FOLDERS {
        let Some(folder) = left.pop() else {
            break;
        };
        if folder.level > MOST_LEVELS {
            return Err(Reason::TooDeep);
        }
        read_folder(rt, &folder, &mut names, &mut left)?;
    }
    if !left.is_empty() {
        return Err(Reason::TooDeep);
    }
    if names.is_empty() {
        return Err(Reason::NoSource);
    }
    names.sort_unstable();
    Ok(names)
}

/// Adds the names in a list, a line each. A line without a character is no name.
fn add_listed(rt: &HostRuntime, list: &str, names: &mut Vec<String>) -> Result<(), Reason> {
    let alloc = rt.alloc();
    let mut bytes = Vec::new(alloc);
    let file = File::open(rt, list)?;
    file.take(MOST_LISTED + 1).read_to_end(&mut bytes)?;
    if bytes.len() as u64 > MOST_LISTED {
        return Err(Reason::NotText);
    }
    let Ok(text) = std::str::from_utf8(bytes.as_slice()) else {
        return Err(Reason::NotText);
    };
    for line in text.lines() {
        if !line.is_empty() {
            names.push(String::from_str(alloc, line)?)?;
        }
    }
    Ok(())
}

/// Returns whether a word names a folder.
fn is_folder(rt: &HostRuntime, word: &str) -> bool {
    match fs::metadata(rt, word) {
        Ok(found) => found.is_dir(),
        Err(_) => false,
    }
}

/// Adds the names of the sources that a word stands for.
fn add_word(rt: &HostRuntime, word: &str, names: &mut Vec<String>) -> Result<(), Reason> {
    if let Some(list) = word.strip_prefix(LIST) {
        return add_listed(rt, list, names);
    }
    if word != STDIN && is_folder(rt, word) {
        for name in sources_of_folder(rt, word)? {
            names.push(name)?;
        }
        return Ok(());
    }
    names.push(String::from_str(rt.alloc(), word)?)?;
    Ok(())
}

// Why: docs/DECISIONS.md, "Folders and lists".
/// Returns the names of the sources that the words of a command line stand for, in their order.
///
/// # Errors
///
/// The first word that stands for no sources, with the reason.
pub(crate) fn source_names(rt: &HostRuntime, words: &[String]) -> Result<Vec<String>, NamesFault> {
    let mut names = Vec::new(rt.alloc());
    for word in 0..words.len() {
        if let Err(reason) = add_word(rt, words[word].as_str(), &mut names) {
            return Err(NamesFault { word, reason });
        }
    }
    Ok(names)
}

/// Returns the path in a word: that of the list, or the word itself.
pub(crate) fn path_of(word: &str) -> &str {
    word.strip_prefix(LIST).unwrap_or(word)
}

/// Returns the words for a reason of the system.
pub(crate) fn words_of(kind: ErrorKind) -> Option<&'static str> {
    if kind == ErrorKind::NotFound {
        Some("no such file")
    } else {
        None
    }
}

/// Returns the name of a source in messages.
pub(crate) fn name_of<'a>(name: &'a str, stdin_name: Option<&'a str>) -> &'a str {
    if name == STDIN {
        stdin_name.unwrap_or("<stdin>")
    } else {
        name
    }
}

/// Returns the name of standard input in messages, if it has one.
pub(crate) fn stdin_name(asked: &CommandLine) -> Option<&str> {
    match &asked.stdin_name {
        Some(name) => Some(name.as_str()),
        None => None,
    }
}
