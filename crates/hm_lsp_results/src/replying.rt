//! Replies to requests about the texts.
ghost use Rattle.std.specs.Prelude.{◌≡◌, IfErr, IfOk, codes, option_map};
ghost use Rattle.serde_json.specs.View.{view};
ghost use Rattle.hm_lsp_session.specs.Params.{string_at};
ghost use Rattle.hm_lsp_session.specs.Replies.{IsReplyTo, method_of};
ghost use Rattle.hm_lsp_results.specs.Asked.{subject_of};
ghost use Rattle.hm_lsp_results.specs.Completions.{IsCompletionsResult};
ghost use Rattle.hm_lsp_results.specs.Prepared.{IsPrepareValue};
ghost use Rattle.hm_lsp_results.specs.Renames.{IsFaultBy, sentence_of};
ghost use Rattle.hm_lsp_results.specs.Results.{HasPosition, HasRange, IsDocumentResult, IsNotRenamableIn, IsRefusedIn, IsRefusedOf, IsRefusedRename, IsReply, IsRenameRequestResult, IsResult, IsResultAtPosition, IsResultFor, IsResultOf, failure_data, with_declarations};
ghost use Rattle.hm_lsp_results.specs.Symbols.{AreFound};

use crate::asking::{Asked, definition, hover, source_in};
use crate::completing::completions;
use crate::declared::symbols;
use crate::faults::RequestFault;
use crate::fixing::actions;
use crate::folder::found_symbols;
use crate::preparing::prepare;
use crate::referring::{highlights, references};
use crate::renames::rename;
use hm_lsp_positions::{Position, Range};
use hm_lsp_session::{Question, Refusal, position_in, range_in, refusal, reply, text_at};
use hm_service_rename::RenameRefusal;
use serde_json::{Value, json};
use std::alloc::{AllocError, Global};
use std::sync::Wait;
use std::thread::Threads;

/// Returns the position of a request.
fn position_of_request(request: &Value) -> Option<Position>
    ensures { HasPosition (view request.now) result }
{
    match request.pointer("/params/position") {
        None => None,
        Some(position) => position_in(position),
    }
}

/// Returns the range of a request.
fn range_of_request(request: &Value) -> Option<Range>
    ensures { HasRange (view request.now) result }
{
    match request.pointer("/params/range") {
        None => None,
        Some(range) => range_in(range),
    }
}

/// Returns whether declarations are among the references of a request.
fn with_declarations(request: &Value) -> bool
    ensures { result ≡ with_declarations (view request.now) }
{
    match request.pointer("/params/context/includeDeclaration") {
        None => true,
        Some(value) => value.as_bool().unwrap_or(true),
    }
}

/// Returns the result of a rename in a source, or `None` if the request's parameters aren't valid.
fn rename_result<T: Threads + Wait + Sync>(
    rt: &T,
    asked: &Asked<'_>,
    source: usize,
    request: &Value,
) -> Result<Option<Value>, RequestFault>
    ensures result { IfOk result (λ made. IsRenameRequestResult (subject_of asked.now) source (view request.now) (option_map view made)) }
    ensures refused { IfErr result (IsFaultBy (IsRefusedIn (subject_of asked.now) source (view request.now))) }
{
    let Some(name) = text_at(request, "/params/newName") else {
        return Ok(None);
    };
    let Some(position) = position_of_request(request) else {
        return Ok(None);
    };
    match rename(rt, asked, source, position, name) {
        Ok(value) => Ok(Some(value)),
        Err(fault) => Err(fault),
    }
}

/// Returns the name that a rename in a source is of, or `None` if the request's parameters aren't valid.
fn prepare_result<T: Threads + Wait + Sync>(
    rt: &T,
    asked: &Asked<'_>,
    source: usize,
    request: &Value,
) -> Result<Option<Value>, RequestFault>
    ensures result { IfOk result (λ made. IsResultAtPosition (IsPrepareValue (subject_of asked.now) source) (view request.now) (option_map view made)) }
    ensures refused { IfErr result (IsFaultBy (IsNotRenamableIn (subject_of asked.now) source (view request.now))) }
{
    let Some(position) = position_of_request(request) else {
        return Ok(None);
    };
    match prepare(rt, asked, source, position) {
        Ok(value) => Ok(Some(value)),
        Err(fault) => Err(fault),
    }
}

/// Returns the names that may be written at the position of a request, or `None` if its parameters aren't valid.
fn completion_result(
    asked: &Asked<'_>,
    source: usize,
    request: &Value,
) -> Result<Option<Value>, AllocError>
    ensures { IfOk result (λ made. IsResultAtPosition (IsCompletionsResult (subject_of asked.now) source) (view request.now) (option_map view made)) }
{
    let Some(position) = position_of_request(request) else {
        return Ok(None);
    };
    Ok(Some(completions(asked, source, position)?))
}

/// Returns the result of a request about a source, or `None` if its parameters aren't valid.
fn result_of<T: Threads + Wait + Sync>(
    rt: &T,
    asked: &Asked<'_>,
    question: Question,
    source: usize,
    request: &Value,
) -> Result<Option<Value>, RequestFault>
    ensures result { IfOk result (λ made. IsResultOf (subject_of asked.now) question source (view request.now) (option_map view made)) }
    ensures refused { IfErr result (IsFaultBy (IsRefusedOf (subject_of asked.now) question source (view request.now))) }
{
    if question == Question::CodeAction {
        return match range_of_request(request) {
            None => Ok(None),
            Some(range) => Ok(Some(actions(rt, asked, source, range)?)),
        };
    }
    if question == Question::DocumentSymbol {
        return Ok(Some(symbols(asked, source)?));
    }
    if question == Question::Rename {
        return rename_result(rt, asked, source, request);
    }
    if question == Question::PrepareRename {
        return prepare_result(rt, asked, source, request);
    }
    if question == Question::Completion {
        return Ok(completion_result(asked, source, request)?);
    }
    let Some(position) = position_of_request(request) else {
        return Ok(None);
    };
    match question {
        Question::Hover => Ok(Some(hover(rt, asked, source, position)?)),
        Question::Definition => Ok(Some(definition(rt, asked, source, position)?)),
        Question::References => {
            let declarations = with_declarations(request);
            Ok(Some(references(rt, asked, source, position, declarations)?))
        }
        Question::DocumentHighlight => Ok(Some(highlights(rt, asked, source, position)?)),
        Question::DocumentSymbol
        | Question::CodeAction
        | Question::Rename
        | Question::PrepareRename
        | Question::Completion
        | Question::WorkspaceSymbol => Ok(None),
    }
}

/// Returns the symbols of all sources that the query of a request finds, or `None` if its parameters aren't valid.
fn found_in(asked: &Asked<'_>, request: &Value) -> Result<Option<Value>, AllocError>
    ensures { IfOk result (λ made. IsResultFor (AreFound (subject_of asked.now)) (string_at (codes "/params/query") (view request.now)) (option_map view made)) }
{
    match text_at(request, "/params/query") {
        None => Ok(None),
        Some(query) => Ok(Some(found_symbols(asked, query)?)),
    }
}

/// Returns the result of a request about a document, or `None` if its parameters aren't valid.
fn document_result<T: Threads + Wait + Sync>(
    rt: &T,
    asked: &Asked<'_>,
    question: Question,
    request: &Value,
) -> Result<Option<Value>, RequestFault>
    ensures result { IfOk result (λ made. IsDocumentResult (subject_of asked.now) question (view request.now) (option_map view made)) }
    ensures refused { IfErr result (IsFaultBy (IsRefusedRename (subject_of asked.now) question (view request.now))) }
{
    match source_in(asked, request)? {
        None => Ok(None),
        Some(source) => result_of(rt, asked, question, source, request),
    }
}

/// Returns the result of a request, or `None` if its parameters aren't valid.
fn result_in<T: Threads + Wait + Sync>(
    rt: &T,
    asked: &Asked<'_>,
    question: Question,
    request: &Value,
) -> Result<Option<Value>, RequestFault>
    ensures result { IfOk result (λ made. IsResult (subject_of asked.now) question (view request.now) (option_map view made)) }
    ensures refused { IfErr result (IsFaultBy (IsRefusedRename (subject_of asked.now) question (view request.now))) }
{
    if question == Question::WorkspaceSymbol {
        return Ok(found_in(asked, request)?);
    }
    document_result(rt, asked, question, request)
}

/// Returns the reply to a request for which memory ran out, no thread could start, or two results contradict each other.
pub fn failure(alloc: Global, id: &Value) -> Result<Value, AllocError>
    ensures value { IfOk result (λ made. view made ≡ failure_data (view id.now)) }
    ensures id { IfOk result (λ made. IsReplyTo (view id.now) (view made)) }
{
    json!(in alloc; {"error": {"code": (-32603), "message": "hmc couldn't reply. Memory may have run out"}, "id": id, "jsonrpc": "2.0"})
}

// Why: docs/DECISIONS.md, "Refused renames".
/// Returns what is said of a refused rename.
fn sentence_of(refusal: RenameRefusal) -> &'static str
    ensures { result.now ≡ sentence_of refusal }
{
    match refusal {
        RenameRefusal::NotWhole => "hmc hasn't checked every module as it is now",
        RenameRefusal::NoName => "no name is at this position",
        RenameRefusal::NotBound => "this name isn't bound in these sources",
        RenameRefusal::NotAName => "the new name isn't a name without a qualifier",
        RenameRefusal::NotRead => "with the new name, a source can't be read",
        RenameRefusal::NotSame => "hmc doesn't accept these sources with the new name",
    }
}

/// Returns the reply to a request with this identifier.
pub fn replied<T: Threads + Wait + Sync>(
    rt: &T,
    asked: &Asked<'_>,
    question: Question,
    id: &Value,
    request: &Value,
) -> Result<Value, AllocError>
    ensures value { IfOk result (λ made. IsReply (subject_of asked.now) question (view request.now) (view id.now) (view made)) }
    ensures id { IfOk result (λ made. IsReplyTo (view id.now) (view made)) }
{
    match result_in(rt, asked, question, request) {
        Ok(Some(result)) => reply(asked.alloc, id, result),
        Ok(None) => refusal(
            asked.alloc,
            id,
            Refusal::InvalidParams,
            "these parameters aren't valid",
        ),
        Err(RequestFault::Server) => failure(asked.alloc, id),
        Err(RequestFault::Refused(why)) => {
            let text = sentence_of(why);
            refusal(asked.alloc, id, Refusal::RequestFailed, text)
        }
    }
}
