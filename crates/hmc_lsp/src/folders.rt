//! The folders whose files are sources.

use crate::disk::{Folder, folder_at, folder_with, read_source, sources_of};
use hm_lsp_server::SourceFile;
use hm_lsp_serving::{Disk, OnDisk};
use hm_lsp_session::Opened;
use hm_lsp_sources::name_of;
use std::alloc::{AllocError, Global};
use std::str;

/// What the URI of a folder begins with.
const SCHEME: &str = "file://";

/// The folders whose files are sources.
#[derive(Drop)]
pub(crate) struct Folders {
    folders: Vec<Folder>,
    /// Whether the client may still name others.
    are_open: bool,
}

/// Returns the path of the folder with this URI, if it is one of the disk.
fn path_in(alloc: Global, uri: &str) -> Result<Option<String>, AllocError> {
    let name = name_of(alloc, uri)?;
    let Ok(name) = str::from_utf8(name.as_slice()) else {
        return Ok(None);
    };
    let Some(path) = name.strip_prefix(SCHEME) else {
        return Ok(None);
    };
    let path = path.strip_suffix('/').unwrap_or(path);
    Ok(Some(String::from_str(alloc, path)?))
}

/// Returns the folders with these URIs. One that isn't of the disk is left out.
fn folders_at(rt: &HostRuntime, uris: &[String]) -> Result<Vec<Folder>, AllocError> {
    let mut folders = Vec::new(rt.alloc());
    for uri in uris {
        if let Some(path) = path_in(rt.alloc(), uri.as_str())? {
            folders.push(folder_at(rt, path)?)?;
        }
    }
    Ok(folders)
}

impl Folders {
    /// Returns the folder with this path, or none. The client may name others if they are open.
    pub(crate) fn new(
        rt: &HostRuntime,
        path: Option<String>,
        are_open: bool,
    ) -> Result<Folders, AllocError> {
        let mut folders = Vec::new(rt.alloc());
        if let Some(path) = path {
            folders.push(folder_at(rt, path)?)?;
        }
        Ok(Folders { folders, are_open })
    }

    /// Returns whether the client may still name the folders.
    pub(crate) fn are_open(&self) -> bool {
        self.are_open
    }

    /// Returns the first folder with only the sources that have these names.
    fn first_with(&self, alloc: Global, names: &[String]) -> Result<Folder, AllocError> {
        match self.folders.first() {
            Some(folder) => folder_with(alloc, folder.path(), names),
            None => folder_with(alloc, "", names),
        }
    }

    // Why: docs/DECISIONS.md, "Folders of the client".
    /// Takes the folders that the client opens. If it opens none, they stay as they are. If it lists sources, the first folder has these, and there is
    /// no other one.
    fn open(&mut self, rt: &HostRuntime, opened: &Opened) -> Result<(), AllocError> {
        self.are_open = false;
        if !opened.folders.is_empty() {
            self.folders = folders_at(rt, &opened.folders)?;
        }
        if let Some(names) = &opened.sources {
            let mut folders = Vec::new(rt.alloc());
            folders.push(self.first_with(rt.alloc(), names)?)?;
            self.folders = folders;
        }
        Ok(())
    }

    /// Returns the sources of the folders, by their paths.
    pub(crate) fn sources(&self, rt: &HostRuntime) -> Result<Vec<SourceFile>, AllocError> {
        sources_of(rt, rt.alloc(), &self.folders)
    }

    /// Returns the path of the file with this URI, or `None` if it is no source of the folders.
    fn source_path(&self, alloc: Global, uri: &str) -> Result<Option<String>, AllocError> {
        let name = name_of(alloc, uri)?;
        let Ok(name) = str::from_utf8(name.as_slice()) else {
            return Ok(None);
        };
        let Some(path) = name.strip_prefix(SCHEME) else {
            return Ok(None);
        };
        for folder in &self.folders {
            if folder.has(path) {
                return Ok(Some(String::from_str(alloc, path)?));
            }
        }
        Ok(None)
    }
}

/// The disk of the host, with these folders.
#[derive(Drop)]
pub(crate) struct HostDisk<'a> {
    pub(crate) host: &'a HostRuntime,
    pub(crate) folders: Folders,
}

impl<'a> Disk for HostDisk<'a> {
    fn open(&mut self, opened: &Opened) -> Result<Option<Vec<SourceFile>>, AllocError> {
        if !self.folders.are_open() {
            return Ok(None);
        }
        self.folders.open(self.host, opened)?;
        Ok(Some(self.folders.sources(self.host)?))
    }

    fn read(&mut self, uri: &str) -> Result<OnDisk, AllocError> {
        let Some(path) = self.folders.source_path(self.host.alloc(), uri)? else {
            return Ok(OnDisk::NoSource);
        };
        Ok(match read_source(self.host, path.as_str()) {
            Some(text) => OnDisk::Text(text),
            None => OnDisk::Missing,
        })
    }
}
