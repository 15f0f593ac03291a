//! Requests that the client cancels before they are begun.
ghost use Rattle.std.specs.Prelude.{◌≡◌, ◌↔◌, [], IfNone, IfOk, IfSome, IsTrue, OnOk, Some};
ghost use Rattle.std.specs.List.{Any};
ghost use Rattle.std.specs.Str.{IsUtf8};
ghost use Rattle.serde_json.specs.Data.{Data};
ghost use Rattle.serde_json.specs.Read.{read};
ghost use Rattle.serde_json.specs.View.{view};
ghost use Rattle.hm_lsp_session.specs.Cancelled.{IsCancel, IsCancelled, IsCancelledReply, IsNoted, IsOfId, IsRequest, IsSameId, cancels_of, number_of};

use crate::params::is_text;
use crate::replies::refusal;
use crate::session::method_of;
use crate::stages::{Method, Refusal};
use serde_json::Value;
use std::alloc::{AllocError, Global};

/// The messages of a client that cancel requests.
#[derive(Drop)]
pub struct Cancelled {
    alloc: Global,
    messages: Vec<Value>,
}

/// Returns whether an identifier is this number.
fn is_number(id: &Value, number: i64) -> bool
    ensures { IsTrue result ↔ (number_of (view id.now) ≡ Some number) }
{
    match id.as_i64() {
        Some(own) => own == number,
        None => false,
    }
}

/// Returns whether two identifiers are one.
fn is_same_id(one: &Value, other: &Value) -> bool
    ensures { IsTrue result ↔ IsSameId (view one.now) (view other.now) }
{
    match one.as_i64() {
        Some(number) => return is_number(other, number),
        None => {}
    }
    match one.as_str() {
        Some(text) => is_text(other, text),
        None => false,
    }
}

/// Returns whether a message that cancels a request has this identifier as its parameter.
fn is_of_id(id: &Value, message: &Value) -> bool
    ensures { IsTrue result ↔ IsOfId (view id.now) (view message.now) }
{
    match message.pointer("/params/id") {
        Some(given) => is_same_id(given, id),
        None => false,
    }
}

/// Returns the message in the body of a frame, or `None` if it isn't UTF-8 or isn't JSON.
pub(crate) fn message_in(alloc: Global, body: &[u8]) -> Result<Option<Value>, AllocError>
    ensures some { IfOk result (λ found. IfSome found (λ message. read body.now ≡ Some (view message))) }
    ensures none { IfOk result (λ found. IfNone found ((message : Data) → IsUtf8 body.now → ¬ (read body.now ≡ Some message))) }
{
    let text = match std::str::from_utf8(body) {
        Ok(text) => text,
        Err(_) => return Ok(None),
    };
    match Value::from_str(alloc, text) {
        Ok(message) => Ok(Some(message)),
        Err(fault) => {
            if fault.is_memory() {
                return Err(AllocError);
            }
            Ok(None)
        }
    }
}

/// Returns whether a message cancels a request.
fn is_cancel(message: &Value) -> bool
    ensures { IsTrue result ↔ IsCancel (view message.now) }
{
    match method_of(message) {
        Some(name) => name == "$/cancelRequest",
        None => false,
    }
}

/// Returns the identifier of a message that is a request about what texts mean.
fn id_of(message: &Value) -> Option<&Value>
    ensures some { IfSome result (λ id. IsRequest (view message.now) (view id.now)) }
    ensures none { IfNone result ((id : Data) → ¬ (IsRequest (view message.now) id)) }
{
    let Some(name) = method_of(message) else {
        return None;
    };
    match Method::of(name) {
        Method::Question(_) => message.get("id"),
        _ => None,
    }
}

impl Cancelled {
    /// Returns none.
    pub fn new(alloc: Global) -> Cancelled
        ensures { cancels_of result ≡ [] }
    {
        Cancelled {
            alloc,
            messages: Vec::new(alloc),
        }
    }

    /// Notes the body of a frame, if it cancels a request.
    ///
    /// # Errors
    ///
    /// If memory runs out.
    pub fn note(&mut self, body: &[u8]) -> Result<(), AllocError>
        ensures { OnOk result (IsNoted (cancels_of self.old) (cancels_of self.new) body.now) }
    {
        let Some(message) = message_in(self.alloc, body)? else {
            return Ok(());
        };
        if is_cancel(&message) {
            self.messages.push(message)?;
        }
        Ok(())
    }

    /// Returns whether one of the messages cancels the request with this identifier.
    fn has(&self, id: &Value) -> bool
        ensures { IsTrue result ↔ Any (IsOfId (view id.now)) (cancels_of self.now) }
    {
        'messages: for message in &self.messages {
            if is_of_id(id, message) {
                return true;
            }
        }
        false
    }

    /// Returns the reply to the body of a frame, if it is a request about what texts mean and is cancelled.
    ///
    /// # Errors
    ///
    /// If memory runs out.
    pub fn reply(&self, body: &[u8]) -> Result<Option<Value>, AllocError>
        ensures some { IfOk result (λ found. IfSome found (λ reply. IsCancelledReply (cancels_of self.now) body.now (view reply))) }
        ensures none { IfOk result (λ found. IfNone found ((message id : Data) → IsUtf8 body.now → read body.now ≡ Some message → ¬ (IsCancelled (cancels_of self.now) message id))) }
    {
        if self.messages.is_empty() {
            return Ok(None);
        }
        let Some(message) = message_in(self.alloc, body)? else {
            return Ok(None);
        };
        let Some(id) = id_of(&message) else {
            return Ok(None);
        };
        if !self.has(id) {
            return Ok(None);
        }
        let text = "the client cancelled this request";
        Ok(Some(refusal(self.alloc, id, Refusal::RequestCancelled, text)?))
    }
}
