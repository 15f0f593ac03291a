//! Sources by their names.
ghost use Rattle.std.specs.Prelude.{◌≡◌, IfOk};
ghost use Rattle.percent_encoding.specs.Percent.{percent_decode};
ghost use Rattle.hm_lsp_sources.specs.Names.{IsNumberOf};

use percent_encoding::percent_decode;
use std::alloc::{AllocError, Global};

// Why: docs/DECISIONS.md, "Names of sources".
/// A source, whose text is held beside it.
#[derive(Drop)]
pub struct Source {
    /// Its URI, as the client writes it.
    pub uri: String,
    /// Its URI without escapes.
    pub name: Vec<u8>,
    /// Its text on the disk, which it has while no document of its name is open.
    pub file: Vec<u8>,
}

/// Returns a URI without escapes. Two URIs of one document differ at most in what they escape.
pub fn name_of(alloc: Global, uri: &str) -> Result<Vec<u8>, AllocError>
    ensures { IfOk result (λ name. name.items ≡ percent_decode uri.now) }
{
    let mut name = Vec::new(alloc);
    percent_decode(uri.as_bytes()).append_to(&mut name)?;
    Ok(name)
}

/// Returns the number of the first source with this name.
pub fn number_of(sources: &[Source], name: &[u8]) -> Option<usize>
    ensures { IsNumberOf sources.now name.now result }
{
    'sources: for index in 0..sources.len() {
        let source = &sources[index];
        if source.name.as_slice() == name {
            return Some(index);
        }
    }
    None
}
