//! The open documents of a client, by their names.
ghost use Rattle.std.specs.Prelude.{◌≡◌, IfOk, map, option_map, string_bytes};
ghost use Rattle.percent_encoding.specs.Percent.{percent_decode};
ghost use Rattle.hm_lsp_sources.specs.Following.{is_open_as, last_open};

use crate::source::name_of;
use hm_lsp_session::Document;
use std::alloc::{AllocError, Global};

/// Returns the names of documents, in order.
pub(crate) fn names_of(alloc: Global, documents: &[Document]) -> Result<Vec<Vec<u8>>, AllocError>
    ensures { IfOk result (λ names. map (λ n. n.items) names.items ≡ map (λ d. percent_decode (string_bytes d.uri)) documents.now) }
{
    let mut names = Vec::new(alloc);
    'documents: for document in documents {
        names.push(name_of(alloc, document.uri.as_str())?)?;
    }
    Ok(names)
}

/// Returns whether a document is open and has a name. `own` is its name.
fn is_open_as(document: &Document, own: &[u8], name: &[u8]) -> bool
    requires { own.now ≡ percent_decode (string_bytes document.now.uri) }
    ensures { result ≡ is_open_as name.now document.now }
{
    document.text.is_some() && own == name
}

/// Returns the last open document of a name. `names` has those of the documents.
pub(crate) fn last_open<'a>(
    documents: &'a [Document],
    names: &[Vec<u8>],
    name: &[u8],
) -> Option<&'a Document>
    requires { map (λ n. n.items) names.now ≡ map (λ d. percent_decode (string_bytes d.uri)) documents.now }
    ensures { option_map (λ d. d.now) result ≡ last_open documents.now name.now }
{
    let mut found = None;
    'documents: for index in 0..documents.len() {
        let document = &documents[index];
        if is_open_as(document, names[index].as_slice(), name) {
            found = Some(document);
        }
    }
    found
}
