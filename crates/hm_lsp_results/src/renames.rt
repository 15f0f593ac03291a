//! Results of requests for renames.
ghost use Rattle.std.specs.Prelude.{◌≡◌, ◌<◌, ◌≤◌, All, IfErr, IfOk, IfSome, length, map, slice_range};
ghost use Rattle.std.specs.List.{AllZip};
ghost use Rattle.serde_json.specs.View.{view};
ghost use Rattle.hm_lsp_results.specs.Asked.{subject_of};
ghost use Rattle.hm_lsp_results.specs.Renames.{AreEdits, AreFirstEdits, IsDocumentEdit, IsFaultBy, IsRefusedAt, IsRenameValue, IsRenamed};
ghost use Rattle.hm_lsp_values.specs.Renames.{IsReplacement};

use crate::asking::Asked;
use crate::faults::{RequestFault, ServerFault};
use crate::referring::place_in;
use hm_lsp_positions::{Cursor, Position};
use hm_lsp_values::{document_edit_value, replacement_value, workspace_edit_value};
use hm_service::Position as Place;
use hm_service_rename::{CheckedSet, Reference, Rename, Renamed, rename_of};
use serde_json::Value;
use std::alloc::AllocError;
use std::sync::Wait;
use std::thread::Threads;

/// The number of workers that check the set after a rename.
pub(crate) const WORKERS: usize = 4;

/// Returns the edits that put a new name in place of references, in order.
fn replacements(
    asked: &Asked<'_>,
    text: &[u8],
    references: &[Reference],
    name: &str,
) -> Result<Vec<Value>, AllocError>
    ensures { IfOk result (λ edits. AllZip (IsReplacement asked.now.encoding text.now name.now) references.now (map view edits.items)) }
{
    let mut cursor = Cursor::new(asked.encoding, text);
    let mut edits = Vec::new(asked.alloc);
    'references: for reference in references {
        edits.push(replacement_value(asked.alloc, &mut cursor, name, reference)?)?;
    }
    Ok(edits)
}

/// Returns the edits that put a new name in place of references in a source.
fn document_edit(
    asked: &Asked<'_>,
    source: usize,
    references: &[Reference],
    name: &str,
) -> Result<Value, AllocError>
    requires sources { source < length asked.now.sources.now }
    requires held { source < length asked.now.held.now }
    ensures { IfOk result (λ value. IsDocumentEdit (subject_of asked.now) name.now source references.now (view value)) }
{
    let named = &asked.sources[source];
    let held = &asked.held[source];
    let (uri, text) = (named.uri.as_str(), held.text.as_slice());
    let edits = replacements(asked, text, references, name)?;
    document_edit_value(asked.alloc, uri, edits)
}

/// Returns where the references of a source end that begin with this one.
fn end_of(references: &[Reference], from: usize, source: usize) -> usize
    requires { from ≤ length references.now }
    ensures later { from ≤ result }
    ensures within { result ≤ length references.now }
    ensures own { All (λ r. r.source ≡ source) (slice_range references.now from result) }
{
    'references: for end in from..references.len() {
        if references[end].source != source {
            return end;
        }
    }
    references.len()
}

/// Returns the edits of each source that has references, or `None` if these aren't in the order of the sources.
fn document_edits(
    asked: &Asked<'_>,
    references: &[Reference],
    name: &str,
) -> Result<Option<Vec<Value>>, AllocError>
    requires { length asked.now.held.now ≤ length asked.now.sources.now }
    ensures { IfOk result (λ made. IfSome made (λ documents. AreFirstEdits (subject_of asked.now) name.now (length asked.now.held.now) references.now (map view documents.items))) }
{
    let mut documents = Vec::new(asked.alloc);
    let mut from = 0;
    'sources: for source in 0..asked.held.len() {
        let end = end_of(references, from, source);
        if from < end {
            let own = &references[from..end];
            documents.push(document_edit(asked, source, own, name)?)?;
        }
        from = end;
    }
    if from < references.len() {
        return Ok(None);
    }
    Ok(Some(documents))
}

/// Returns the edits that put a new name in place of references.
fn edits(asked: &Asked<'_>, references: &[Reference], name: &str) -> Result<Value, ServerFault>
    ensures { IfOk result (λ value. AreEdits (subject_of asked.now) name.now references.now (view value)) }
{
    if asked.sources.len() < asked.held.len() {
        return Err(ServerFault);
    }
    let Some(documents) = document_edits(asked, references, name)? else {
        return Err(ServerFault);
    };
    Ok(workspace_edit_value(asked.alloc, documents)?)
}

/// Returns what a rename of the name at a place returns.
fn renamed_at<T: Threads + Wait + Sync>(
    rt: &T,
    asked: &Asked<'_>,
    source: usize,
    place: &Place,
    name: &str,
) -> Result<Renamed, ServerFault>
    requires { place.now.line ≤ 4294967295 }
    ensures { IfOk result (IsRenamed (subject_of asked.now) source place.now name.now) }
{
    let set = CheckedSet {
        held: asked.held,
        checked: asked.checked,
        workers: WORKERS,
    };
    let rename = Rename {
        source,
        line: place.line as u32,
        column: place.columns.bytes,
        name,
    };
    match rename_of(rt, asked.alloc, &set, &rename) {
        Ok(renamed) => Ok(renamed),
        Err(_) => Err(ServerFault),
    }
}

/// Returns the edits that rename the name at a position, or null if the position is in no text that can be read.
///
/// # Errors
///
/// `Refused` if the checker refuses the rename.
pub(crate) fn rename<T: Threads + Wait + Sync>(
    rt: &T,
    asked: &Asked<'_>,
    source: usize,
    position: Position,
    name: &str,
) -> Result<Value, RequestFault>
    ensures value { IfOk result (λ value. IsRenameValue (subject_of asked.now) source name.now position (view value)) }
    ensures refused { IfErr result (IsFaultBy (IsRefusedAt (subject_of asked.now) source name.now position)) }
{
    let Some(place) = place_in(asked, source, position) else {
        return Ok(Value::Null);
    };
    match renamed_at(rt, asked, source, &place, name)? {
        Renamed::Refused(refusal) => Err(RequestFault::Refused(refusal)),
        Renamed::Edits(references) => Ok(edits(asked, references.as_slice(), name)?),
    }
}
