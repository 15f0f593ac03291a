//! The folders that a client opens, and the sources that it lists.
ghost use Rattle.std.specs.Prelude.{◌≡◌, IfNone, IfOk, IfSome, Some, codes, map, option_map, string_bytes};
ghost use Rattle.std.specs.Str.{IsUtf8};
ghost use Rattle.serde_json.specs.Data.{Data};
ghost use Rattle.serde_json.specs.Find.{as_str, get};
ghost use Rattle.serde_json.specs.Read.{read};
ghost use Rattle.serde_json.specs.View.{items_view, view};
ghost use Rattle.hm_lsp_session.specs.Files.{IsBody};
ghost use Rattle.hm_lsp_session.specs.Folders.{IsOpened, IsOpening, folders_in, listed_folders, sources_in, texts_in};

use crate::cancelling::message_in;
use crate::params::{add, root_in, uris_of};
use crate::session::method_of;
use crate::stages::Method;
use serde_json::Value;
use std::alloc::{AllocError, Global};

/// What a request `initialize` opens.
#[derive(Drop)]
pub struct Opened {
    /// The URIs of the folders, in order.
    pub folders: Vec<String>,
    /// The names of the sources, in order, if the options of the client have a list of them.
    pub sources: Option<Vec<String>>,
}

/// Returns the identifier of a message that is a request `initialize`.
fn opening_id(message: &Value) -> Option<&Value>
    ensures some { IfSome result (λ id. IsOpening (view message.now) (view id.now)) }
    ensures none { IfNone result ((id : Data) → ¬ (IsOpening (view message.now) id)) }
{
    let Some(name) = method_of(message) else {
        return None;
    };
    match Method::of(name) {
        Method::Initialize => message.get("id"),
        _ => None,
    }
}

/// Returns the URIs of the list of folders, if the parameters of `initialize` have one.
fn listed(alloc: Global, params: &Value) -> Result<Option<Vec<String>>, AllocError>
    ensures { IfOk result (λ found. option_map (λ uris. map string_bytes uris.items) found ≡ listed_folders (view params.now)) }
{
    let Some(folders) = params.get("workspaceFolders") else {
        return Ok(None);
    };
    let Some(folders) = folders.as_array() else {
        return Ok(None);
    };
    Ok(Some(uris_of(alloc, folders.as_slice())?))
}

/// Returns the URIs of the folders of a message.
fn folders_of(alloc: Global, message: &Value) -> Result<Vec<String>, AllocError>
    ensures { IfOk result (λ uris. map string_bytes uris.items ≡ folders_in (get (codes "params") (view message.now))) }
{
    let Some(params) = message.get("params") else {
        return Ok(Vec::new(alloc));
    };
    if let Some(uris) = listed(alloc, params)? {
        return Ok(uris);
    }
    Ok(root_in(alloc, params)?)
}

/// Returns a text, or `None` if the value isn't one.
fn text_in(alloc: Global, value: &Value) -> Result<Option<String>, AllocError>
    ensures { IfOk result (λ found. option_map string_bytes found ≡ as_str (view value.now)) }
{
    match value.as_str() {
        None => Ok(None),
        Some(text) => Ok(Some(String::from_str(alloc, text)?)),
    }
}

/// Returns the texts of these, in order. One that is no text is left out.
fn texts_of(alloc: Global, values: &[Value]) -> Result<Vec<String>, AllocError>
    ensures { IfOk result (λ texts. map string_bytes texts.items ≡ texts_in (items_view values.now)) }
{
    let mut texts = Vec::new(alloc);
    'listed: for value in values {
        let text = text_in(alloc, value)?;
        add(&mut texts, text)?;
    }
    Ok(texts)
}

/// Returns the names of the sources that a message lists, if it lists some.
fn sources_of(alloc: Global, message: &Value) -> Result<Option<Vec<String>>, AllocError>
    ensures { IfOk result (λ found. option_map (λ names. map string_bytes names.items) found ≡ sources_in (get (codes "params") (view message.now))) }
{
    let Some(params) = message.get("params") else {
        return Ok(None);
    };
    let Some(sources) = params.pointer("/initializationOptions/sources") else {
        return Ok(None);
    };
    let Some(sources) = sources.as_array() else {
        return Ok(None);
    };
    Ok(Some(texts_of(alloc, sources.as_slice())?))
}

/// Returns what a message opens.
fn opened_in(alloc: Global, message: &Value) -> Result<Opened, AllocError>
    ensures folders { IfOk result (λ opened. map string_bytes opened.folders.items ≡ folders_in (get (codes "params") (view message.now))) }
    ensures sources { IfOk result (λ opened. option_map (λ names. map string_bytes names.items) opened.sources ≡ sources_in (get (codes "params") (view message.now))) }
{
    let folders = folders_of(alloc, message)?;
    let sources = sources_of(alloc, message)?;
    Ok(Opened { folders, sources })
}

/// Returns what the body of a request `initialize` opens, or `None` if the body is no such request.
///
/// # Errors
///
/// If memory runs out.
pub fn opened_by(alloc: Global, body: &[u8]) -> Result<Option<Opened>, AllocError>
    ensures some { IfOk result (λ found. IfSome found (λ opened. IsBody body.now (λ message. IsOpened message opened))) }
    ensures none { IfOk result (λ found. IfNone found ((message id : Data) → IsUtf8 body.now → read body.now ≡ Some message → ¬ (IsOpening message id))) }
{
    let Some(message) = message_in(alloc, body)? else {
        return Ok(None);
    };
    let Some(_) = opening_id(&message) else {
        return Ok(None);
    };
    Ok(Some(opened_in(alloc, &message)?))
}
