//! The disk that has the sources of a client.

use hm_lsp_server::SourceFile;
use hm_lsp_session::Opened;
use std::alloc::AllocError;

/// What a disk has for a URI.
#[derive(Drop)]
pub enum OnDisk {
    /// It is no source of the folders.
    NoSource,
    /// The source isn't there, or can't be read.
    Missing,
    /// The text of the source.
    Text(Vec<u8>),
}

/// A disk with the folders whose files are sources.
pub trait Disk {
    /// Takes the folders that a client opens, and returns their sources. Returns `None` if the client can't choose the folders.
    fn open(&mut self, opened: &Opened) -> Result<Option<Vec<SourceFile>>, AllocError>;

    /// Returns what the disk has for a URI.
    fn read(&mut self, uri: &str) -> Result<OnDisk, AllocError>;
}
