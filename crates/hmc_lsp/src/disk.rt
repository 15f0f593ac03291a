//! Files of a folder.

use hm_lsp_server::SourceFile;
use std::alloc::{AllocError, Global};
use std::fs::File;
use std::io::Read;
use std::path::AsPath;
use std::{fs, str};

/// The most files that are read.
const MOST_FILES: usize = 4096;

/// The most bytes that are read of a source: one more than a source may have.
const MOST_BYTES: u64 = 1_048_577;

/// The most bytes that are read of a list.
const MOST_LISTED: u64 = 1_048_576;

/// The most folders that are searched, besides those where the search begins.
const MOST_FOLDERS: usize = 65_536;

/// The deepest folder that is searched.
const DEEPEST: usize = 8;

/// The name of the file that lists the sources of its folder.
const LIST: &str = "hmc.files";

/// A folder whose files are sources.
#[derive(Drop)]
pub(crate) struct Folder {
    path: String,
    /// The paths that its list has, in the order of their bytes, if it has a list.
    listed: Option<Vec<String>>,
}

/// The sources that a search found.
#[derive(Drop)]
struct Found {
    files: Vec<SourceFile>,
    /// How many folders were searched below those where the search began.
    folders: usize,
}

// Why: docs/DECISIONS.md, "What is read of the disk".
/// Returns the first bytes of a plain file, up to this many. `None` is returned if it can't be read.
fn read_file(rt: &HostRuntime, path: &str, most: u64) -> Option<Vec<u8>> {
    if !fs::metadata(rt, path).ok()?.is_file() {
        return None;
    }
    let file = File::open(rt, path).ok()?;
    let mut bytes = Vec::new(rt.alloc());
    file.take(most).read_to_end(&mut bytes).ok()?;
    Some(bytes)
}

/// Returns the text of a source. `None` is returned if it can't be read.
pub(crate) fn read_source(rt: &HostRuntime, path: &str) -> Option<Vec<u8>> {
    read_file(rt, path, MOST_BYTES)
}

/// Adds the sources in a folder and in the folders below it.
fn add_sources(
    rt: &HostRuntime,
    alloc: Global,
    folder: &str,
    depth: usize,
    found: &mut Found,
) -> Result<(), AllocError> {
    let Ok(entries) = fs::read_dir(rt, folder) else {
        return Ok(());
    };
    for entry in entries {
        let Ok(entry) = entry else {
            continue;
        };
        if found.files.len() >= MOST_FILES || entry.file_name().starts_with('.') {
            continue;
        }
        let Ok(kind) = entry.file_type() else {
            continue;
        };
        let path = String::from_str(alloc, entry.path().path_text())?;
        if kind.is_dir() {
            if depth < DEEPEST && found.folders < MOST_FOLDERS {
                found.folders += 1;
                add_sources(rt, alloc, path.as_str(), depth + 1, found)?;
            }
        } else if kind.is_file() && path.as_str().ends_with(".hs") {
            if let Some(text) = read_source(rt, path.as_str()) {
                found.files.push(SourceFile { path, text })?;
            }
        }
    }
    Ok(())
}

/// Returns the path of a file that a folder names.
fn path_below(alloc: Global, folder: &str, name: &str) -> Result<String, AllocError> {
    if name.starts_with('/') {
        return String::from_str(alloc, name);
    }
    let mut path = String::from_str(alloc, folder)?;
    path.push('/')?;
    path.push_str(name.strip_prefix("./").unwrap_or(name))?;
    Ok(path)
}

// Why: docs/DECISIONS.md, "Lists of sources".
/// Returns the paths that the list of a folder has, a line each, in the order of their bytes. `None` is returned if the folder has no list that is text.
fn listed_in(rt: &HostRuntime, folder: &str) -> Result<Option<Vec<String>>, AllocError> {
    let alloc = rt.alloc();
    let list = path_below(alloc, folder, LIST)?;
    let Some(text) = read_file(rt, list.as_str(), MOST_LISTED) else {
        return Ok(None);
    };
    let Ok(text) = str::from_utf8(text.as_slice()) else {
        return Ok(None);
    };
    let mut paths = Vec::new(alloc);
    for line in text.lines() {
        if !line.is_empty() {
            paths.push(path_below(alloc, folder, line)?)?;
        }
    }
    paths.sort_unstable();
    Ok(Some(paths))
}

/// Returns the folder with this path that has only the sources with these names.
pub(crate) fn folder_with(
    alloc: Global,
    path: &str,
    names: &[String],
) -> Result<Folder, AllocError> {
    let mut paths = Vec::new(alloc);
    for name in names {
        paths.push(path_below(alloc, path, name.as_str())?)?;
    }
    paths.sort_unstable();
    Ok(Folder {
        path: String::from_str(alloc, path)?,
        listed: Some(paths),
    })
}

/// Returns the folder with this path.
pub(crate) fn folder_at(rt: &HostRuntime, path: String) -> Result<Folder, AllocError> {
    let listed = listed_in(rt, path.as_str())?;
    Ok(Folder { path, listed })
}

/// Adds the sources that a list has. One that can't be read is left out.
fn add_listed(
    rt: &HostRuntime,
    alloc: Global,
    listed: &[String],
    found: &mut Vec<SourceFile>,
) -> Result<(), AllocError> {
    for path in listed {
        if found.len() >= MOST_FILES {
            return Ok(());
        }
        if let Some(text) = read_source(rt, path.as_str()) {
            let path = String::from_str(alloc, path.as_str())?;
            found.push(SourceFile { path, text })?;
        }
    }
    Ok(())
}

// Why: docs/DECISIONS.md, "Files beside documents".
/// Returns the sources of folders, by their paths. No path is there twice.
pub(crate) fn sources_of(
    rt: &HostRuntime,
    alloc: Global,
    folders: &[Folder],
) -> Result<Vec<SourceFile>, AllocError> {
    let mut found = Found {
        files: Vec::new(alloc),
        folders: 0,
    };
    for folder in folders {
        match &folder.listed {
            Some(listed) => add_listed(rt, alloc, listed.as_slice(), &mut found.files)?,
            None => add_sources(rt, alloc, folder.path.as_str(), 0, &mut found)?,
        }
    }
    let mut files = found.files;
    files.sort_by(|a, b| a.path.as_str().cmp(b.path.as_str()))?;
    files.dedup_by(|a, b| a.path.as_str() == b.path.as_str());
    Ok(files)
}

/// Returns whether a path below a folder is that of a source: its name ends with `.hs`, and neither its name nor one of its folders is hidden or too deep.
fn is_source(below: &str) -> bool {
    let mut depth = 0;
    let mut is_first = false;
    for byte in below.as_bytes() {
        if is_first && *byte == b'.' {
            return false;
        }
        is_first = *byte == b'/';
        if is_first {
            if depth > DEEPEST {
                return false;
            }
            depth += 1;
        }
    }
    below.starts_with('/') && below.ends_with(".hs")
}

impl Folder {
    /// Returns the path of the folder.
    pub(crate) fn path(&self) -> &str {
        self.path.as_str()
    }

    /// Returns whether the file with this path is a source of the folder.
    pub(crate) fn has(&self, path: &str) -> bool {
        match &self.listed {
            Some(listed) => listed.binary_search_by(|it| it.as_str().cmp(path)).is_ok(),
            None => match path.strip_prefix(self.path.as_str()) {
                Some(below) => is_source(below),
                None => false,
            },
        }
    }
}
