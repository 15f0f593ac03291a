//! A session: how far it is, the documents of the client, and what each message does.
ghost use Rattle.std.specs.Prelude.{◌≡◌, [], None, Some, IfOk, IsSome, IsTrue, OnErr, codes, false, true, option_and_then, option_map};
ghost use Rattle.serde_json.specs.Data.{Data, null};
ghost use Rattle.serde_json.specs.Find.{as_bool, get};
ghost use Rattle.serde_json.specs.View.{items_view, view};
ghost use Rattle.hm_lsp_session.specs.Documents.{listed, SameTexts};
ghost use Rattle.hm_lsp_session.specs.Effects.{documents_of, encoding_of, HasBodyEffect, HasEffect, HasMessageEffect, HasNoChange, HasNoDocument, HasNoText, HasParamsEffect, IsAppliedTo, IsChanged, IsBodyHeard, IsClosed, IsHeard, IsIgnored, IsIgnoredIn, IsNotApplied, IsNothingOnlyFor, IsOpened, TextsAre};
ghost use Rattle.hm_lsp_session.specs.Files.{AreFilesIn, AreFilesOf, AreFilesSaid, EndsAfter, IfBegun, IfEnded, IfFiles, IsBegin, IsBody, IsEnded, IsExit, watches_files};
ghost use Rattle.hm_lsp_session.specs.Params.{changed_files};
ghost use Rattle.hm_lsp_session.specs.Stages.{request_decision};
ghost use Rattle.hm_lsp_session.specs.Steps.{stage_of, IsEdit, IsNews, IsStep};
ghost use Rattle.hm_lsp_session.specs.Units.{capabilities_data, params_in, unit_name, HasText, HaveUnits, HaveUnitsAfter, IsAgreed, ListsUnits, OffersUnits, SaysUnits};
ghost use Rattle.hm_lsp_session.specs.Watching.{IsWatching, OffersToWatch, Watches, WatchesAfter};
ghost use Rattle.hm_lsp_session.specs.Replies.{method_of, AnswersRequest, IsAsked, IsLeft, IsLeftOf, IsReplyTo, RefusesMessage, Takes, TakesBody, TakesNotification, TakesOther};

use crate::documents::Documents;
use crate::params::{changes_in, files_in, is_text, text_at};
use crate::replies::{refusal, reply};
use crate::stages::{
    Decision, Method, Question, Refusal, Stage, notification_decision, request_decision,
};
use hm_lsp_positions::{Change, ChangeFault, Encoding, all_changed};
use serde_json::{Value, json};
use std::alloc::{AllocError, Global};

/// What a message of the client leads to. No message has more than one reply.
#[derive(Drop)]
pub enum Outcome {
    /// A reply for the client.
    Reply(Value),
    /// The service makes the reply to this request about texts.
    Ask(Question, Value),
    /// The texts changed.
    Changed,
    /// The client takes requests of the server from now on.
    Begun,
    /// The files with these URIs may have changed on the disk.
    Files(Vec<String>),
    /// Nothing.
    Nothing,
    /// The server ends with this exit status.
    Ended(u8),
}

// Why: docs/DECISIONS.md, "Sessions without a service".
/// The state of a server, without what is found in the texts.
#[derive(Drop)]
pub struct Session {
    alloc: Global,
    stage: Stage,
    encoding: Encoding,
    /// Whether the client offers to watch files.
    watches_files: bool,
    documents: Documents,
}

/// Returns whether a parameter says yes.
fn says_yes(offer: Option<&Value>) -> bool
    ensures yes { IsTrue result → option_and_then as_bool (option_map (λ v. view v.now) offer.entry) ≡ Some true }
    ensures no { result ≡ false → ¬ (option_and_then as_bool (option_map (λ v. view v.now) offer.entry) ≡ Some true) }
{
    match offer {
        Some(offer) => offer.as_bool() == Some(true),
        None => false,
    }
}

/// Returns whether the client offers to watch files.
fn offers_to_watch(params: &Value) -> bool
    ensures yes { IsTrue result → OffersToWatch (view params.now) }
    ensures no { result ≡ false → ¬ (OffersToWatch (view params.now)) }
{
    says_yes(params.pointer("/capabilities/workspace/didChangeWatchedFiles/dynamicRegistration"))
}

/// Returns whether the client watches files.
fn is_watching(params: &Value) -> bool
    ensures { IsWatching (view params.now) result }
{
    if offers_to_watch(params) {
        return true;
    }
    false
}

/// Returns whether one of these values is a text.
fn has_text(values: &[Value], text: &str) -> bool
    ensures yes { IsTrue result → HasText text.now (items_view values.now) }
    ensures no { result ≡ false → ¬ (HasText text.now (items_view values.now)) }
{
    'values: for value in values {
        if is_text(value, text) {
            return true;
        }
    }
    false
}

/// Returns whether the client offers to count columns in bytes of UTF-8.
fn offers_utf8(params: &Value) -> bool
    ensures yes { IsTrue result → OffersUnits (codes "utf-8") (view params.now) }
    ensures no { result ≡ false → ¬ (OffersUnits (codes "utf-8") (view params.now)) }
{
    let Some(offered) = params.pointer("/capabilities/general/positionEncodings") else {
        return false;
    };
    let Some(offered) = offered.as_array() else {
        return false;
    };
    has_text(offered.as_slice(), "utf-8")
}

/// Returns the encoding of columns: UTF-8 if the client offers it, or else UTF-16, which each client has.
fn offered_encoding(params: &Value) -> Encoding
    ensures { IsAgreed (view params.now) result }
{
    if offers_utf8(params) {
        return Encoding::Utf8;
    }
    Encoding::Utf16
}

/// Returns how the server renames. A client that doesn't ask for the range of a name first doesn't know the longer form.
fn rename_provider(alloc: Global, params: &Value) -> Result<Value, AllocError> {
    if says_yes(params.pointer("/capabilities/textDocument/rename/prepareSupport")) {
        return json!(in alloc; {"prepareProvider": true});
    }
    Ok(Value::Bool(true))
}

/// Returns the name of units.
fn unit_name(encoding: Encoding) -> &'static str
    ensures { result.now ≡ unit_name encoding }
{
    match encoding {
        Encoding::Utf8 => "utf-8",
        Encoding::Utf16 => "utf-16",
        Encoding::Utf32 => "utf-32",
    }
}

/// Returns the capabilities of the server, with the name of its units.
fn capability_list(
    alloc: Global,
    units: &str,
    completions: &Value,
    renames: &Value,
) -> Result<Value, AllocError>
    ensures { IfOk result (λ made. view made ≡ capabilities_data units.now (view completions.now) (view renames.now)) }
{
    json!(in alloc; {
        "codeActionProvider": true,
        "completionProvider": completions,
        "definitionProvider": true,
        "documentHighlightProvider": true,
        "documentSymbolProvider": true,
        "hoverProvider": true,
        "positionEncoding": units,
        "referencesProvider": true,
        "renameProvider": renames,
        "textDocumentSync": {"change": 2, "openClose": true},
        "workspaceSymbolProvider": true
    })
}

/// Returns the result of `initialize` with these capabilities.
fn initialized(alloc: Global, capabilities: &Value) -> Result<Value, AllocError>
    ensures { IfOk result (λ made. get (codes "capabilities") (view made) ≡ Some (view capabilities.now)) }
{
    json!(in alloc; {"capabilities": capabilities, "serverInfo": {"name": "hmc"}})
}

/// Returns the result of `initialize`.
fn initialize_result(alloc: Global, encoding: Encoding, params: &Value) -> Result<Value, AllocError>
    ensures { IfOk result (λ made. ListsUnits encoding (view made)) }
{
    let renames = rename_provider(alloc, params)?;
    let completions = json!(in alloc; {"triggerCharacters": ["."]})?;
    let capabilities = capability_list(alloc, unit_name(encoding), &completions, &renames)?;
    Ok(initialized(alloc, &capabilities)?)
}

/// Returns the name of the method of a message.
pub(crate) fn method_of(message: &Value) -> Option<&str>
    ensures { option_map (λ name. name.now) result ≡ method_of (view message.now) }
{
    match message.get("method") {
        Some(name) => name.as_str(),
        None => None,
    }
}

/// Returns the version of a document in the parameters of a notification.
fn version_in(params: &Value) -> i64 {
    match params.pointer("/textDocument/version") {
        Some(version) => version.as_i64().unwrap_or(0),
        None => 0,
    }
}

impl Session {
    /// Returns a session before its first message.
    pub fn new(alloc: Global) -> Session
        ensures stage { stage_of result ≡ Stage.New }
        ensures documents { listed (documents_of result) ≡ [] }
    {
        Session {
            alloc,
            stage: Stage::New,
            encoding: Encoding::Utf16,
            watches_files: false,
            documents: Documents::new(alloc),
        }
    }

    /// Returns the documents of the client.
    pub fn documents(&self) -> &Documents
        ensures { result.now ≡ documents_of self.now }
    {
        &self.documents
    }

    /// Returns how far the session is.
    pub fn stage(&self) -> Stage
        ensures { result ≡ stage_of self.now }
    {
        self.stage
    }

    /// Returns what the columns of positions count.
    pub fn encoding(&self) -> Encoding
        ensures { result ≡ encoding_of self.now }
    {
        self.encoding
    }

    /// Returns whether the client offers to watch files, so that it says when one changes.
    pub fn watches_files(&self) -> bool
        ensures { result ≡ watches_files self.now }
    {
        self.watches_files
    }

    /// Replies to `initialize`, after which the session is ready.
    fn initialize(&mut self, id: &Value, params: &Value) -> Result<Value, AllocError>
        ensures stage { IfOk result (λ made. self.new.stage ≡ Stage.Ready) }
        ensures id { IfOk result (λ made. IsReplyTo (view id.now) (view made)) }
        ensures kept { self.new.documents ≡ self.old.documents }
        ensures agreed { IfOk result (λ made. IsAgreed (view params.now) self.new.encoding) }
        ensures watching { IfOk result (λ made. IsWatching (view params.now) self.new.watches_files) }
        ensures said { IfOk result (λ made. SaysUnits self.new.encoding (view made)) }
    {
        let encoding = offered_encoding(params);
        let answer = initialize_result(self.alloc, encoding, params)?;
        let made = reply(self.alloc, id, answer)?;
        self.encoding = encoding;
        self.watches_files = is_watching(params);
        self.stage = Stage::Ready;
        Ok(made)
    }

    /// Replies to `shutdown`, after which the session is shut down.
    fn shut_down(&mut self, id: &Value) -> Result<Value, AllocError>
        ensures stage { IfOk result (λ made. self.new.stage ≡ Stage.ShutDown) }
        ensures id { IfOk result (λ made. IsReplyTo (view id.now) (view made)) }
        ensures kept { self.new.documents ≡ self.old.documents }
        ensures units { self.new.encoding ≡ self.old.encoding }
        ensures watches { self.new.watches_files ≡ self.old.watches_files }
    {
        let made = reply(self.alloc, id, Value::Null)?;
        self.stage = Stage::ShutDown;
        Ok(made)
    }

    /// Opens a document.
    fn open(&mut self, params: &Value) -> Result<Outcome, AllocError>
        ensures silent { IfOk result (λ out. TakesNotification out) }
        ensures stage { self.new.stage ≡ self.old.stage }
        ensures units { self.new.encoding ≡ self.old.encoding }
        ensures watches { self.new.watches_files ≡ self.old.watches_files }
        ensures edits { IfOk result (λ out. IsEdit out) }
        ensures texts { IfOk result (λ out. TextsAre out (IsOpened (view params.now) self.old.documents self.new.documents) self.old.documents self.new.documents) }
        ensures ignored { IfOk result (λ out. IsNothingOnlyFor (HasNoText (view params.now)) out) }
        ensures err { OnErr result (SameTexts self.old.documents self.new.documents) }
    {
        let Some(uri) = text_at(params, "/textDocument/uri") else {
            return Ok(Outcome::Nothing);
        };
        let Some(text) = text_at(params, "/textDocument/text") else {
            return Ok(Outcome::Nothing);
        };
        let text = Vec::from_slice(self.alloc, text.as_bytes())?;
        self.documents
            .set(self.alloc, uri, version_in(params), Some(text))?;
        Ok(Outcome::Changed)
    }

    /// Gives a document the text after changes.
    fn apply(&mut self, uri: &str, version: i64, changes: &[Change]) -> Result<Outcome, AllocError>
        ensures silent { IfOk result (λ out. TakesNotification out) }
        ensures stage { self.new.stage ≡ self.old.stage }
        ensures units { self.new.encoding ≡ self.old.encoding }
        ensures watches { self.new.watches_files ≡ self.old.watches_files }
        ensures edits { IfOk result (λ out. IsEdit out) }
        ensures texts { IfOk result (λ out. TextsAre out (IsAppliedTo self.old.encoding uri.now changes.now self.old.documents self.new.documents) self.old.documents self.new.documents) }
        ensures ignored { IfOk result (λ out. IsNothingOnlyFor (IsNotApplied self.old.encoding uri.now changes.now self.old.documents) out) }
        ensures err { OnErr result (SameTexts self.old.documents self.new.documents) }
    {
        let Some(text) = self.documents.text_of(uri) else {
            return Ok(Outcome::Nothing);
        };
        match all_changed(self.alloc, self.encoding, text, changes) {
            Ok(text) => {
                self.documents.set(self.alloc, uri, version, Some(text))?;
                Ok(Outcome::Changed)
            }
            Err(ChangeFault::Memory) => Err(AllocError),
            Err(ChangeFault::Reversed) => Ok(Outcome::Nothing),
        }
    }

    /// Changes a document.
    fn change(&mut self, params: &Value) -> Result<Outcome, AllocError>
        ensures silent { IfOk result (λ out. TakesNotification out) }
        ensures stage { self.new.stage ≡ self.old.stage }
        ensures units { self.new.encoding ≡ self.old.encoding }
        ensures watches { self.new.watches_files ≡ self.old.watches_files }
        ensures edits { IfOk result (λ out. IsEdit out) }
        ensures texts { IfOk result (λ out. TextsAre out (IsChanged self.old.encoding (view params.now) self.old.documents self.new.documents) self.old.documents self.new.documents) }
        ensures ignored { IfOk result (λ out. IsNothingOnlyFor (HasNoChange self.old.encoding (view params.now) self.old.documents) out) }
        ensures err { OnErr result (SameTexts self.old.documents self.new.documents) }
    {
        let Some(uri) = text_at(params, "/textDocument/uri") else {
            return Ok(Outcome::Nothing);
        };
        let Some(changes) = params.get("contentChanges") else {
            return Ok(Outcome::Nothing);
        };
        let Some(changes) = changes_in(self.alloc, changes)? else {
            return Ok(Outcome::Nothing);
        };
        Ok(self.apply(uri, version_in(params), changes.as_slice())?)
    }

    /// Closes a document.
    fn close(&mut self, params: &Value) -> Result<Outcome, AllocError>
        ensures silent { IfOk result (λ out. TakesNotification out) }
        ensures stage { self.new.stage ≡ self.old.stage }
        ensures units { self.new.encoding ≡ self.old.encoding }
        ensures watches { self.new.watches_files ≡ self.old.watches_files }
        ensures edits { IfOk result (λ out. IsEdit out) }
        ensures texts { IfOk result (λ out. TextsAre out (IsClosed (view params.now) self.old.documents self.new.documents) self.old.documents self.new.documents) }
        ensures ignored { IfOk result (λ out. IsNothingOnlyFor (HasNoDocument (view params.now) self.old.documents) out) }
        ensures err { OnErr result (SameTexts self.old.documents self.new.documents) }
    {
        let Some(uri) = text_at(params, "/textDocument/uri") else {
            return Ok(Outcome::Nothing);
        };
        if self.documents.text_of(uri).is_none() {
            return Ok(Outcome::Nothing);
        }
        self.documents.set(self.alloc, uri, 0, None)?;
        Ok(Outcome::Changed)
    }

    /// Acts on a notification.
    #[tactic(auto, using(crate::proofs::Going::edit_news, crate::proofs::Going::no_files, crate::proofs::Going::not_begun))]
    fn act(&mut self, method: Method, params: &Value) -> Result<Outcome, AllocError>
        ensures silent { IfOk result (λ out. TakesNotification out) }
        ensures stage { self.new.stage ≡ self.old.stage }
        ensures units { self.new.encoding ≡ self.old.encoding }
        ensures watches { self.new.watches_files ≡ self.old.watches_files }
        ensures news { IfOk result (λ out. IsNews out) }
        ensures texts { IfOk result (λ out. TextsAre out (HasEffect method (view params.now) self.old.encoding self.old.documents self.new.documents) self.old.documents self.new.documents) }
        ensures begun { IfOk result (λ out. IfBegun out (method ≡ Method.Initialized)) }
        ensures files { IfOk result (λ out. IfFiles out (AreFilesOf method (view params.now))) }
        ensures ignored { IfOk result (λ out. IsNothingOnlyFor (IsIgnored method (view params.now) self.old.encoding self.old.documents) out) }
        ensures err { OnErr result (SameTexts self.old.documents self.new.documents) }
    {
        match method {
            Method::DidOpen => Ok(self.open(params)?),
            Method::DidChange => Ok(self.change(params)?),
            Method::DidClose => Ok(self.close(params)?),
            Method::Initialized => Ok(Outcome::Begun),
            Method::DidChangeWatchedFiles => match files_in(self.alloc, params)? {
                Some(uris) => Ok(Outcome::Files(uris)),
                None => Ok(Outcome::Nothing),
            },
            Method::Initialize
            | Method::Shutdown
            | Method::Exit
            | Method::Question(_)
            | Method::Unknown => Ok(Outcome::Nothing),
        }
    }
}

/// Returns the parameters of a message, or another value if it has none.
fn params_or<'a>(message: &'a Value, other: &'a Value) -> &'a Value
    ensures { view other.now ≡ null → view result.now ≡ params_in (get (codes "params") (view message.now)) }
{
    match message.get("params") {
        Some(params) => params,
        None => other,
    }
}

/// Returns whether a message without a method is a reply of the client.
fn is_reply(message: &Value) -> bool {
    message.get("result").is_some() || message.get("error").is_some()
}

impl Session {
    /// Takes a request that isn't refused.
    fn go(&mut self, method: Method, message: Value) -> Result<Outcome, AllocError>
        requires id { IsSome (get (codes "id") (view message)) }
        requires decided { request_decision self.old.stage method ≡ Decision.Go }
        ensures step { IfOk result (λ out. IsStep self.old.stage out self.new.stage) }
        ensures one { IfOk result (λ out. (id : Data) → get (codes "id") (view message) ≡ Some id → AnswersRequest (view message) id out) }
        ensures left { IfOk result (λ out. (q : Question) → method ≡ Method.Question q → IsAsked q (view message) out) }
        ensures units { IfOk result (λ out. HaveUnits (view message) out self.old.stage self.new.stage self.old.encoding self.new.encoding) }
        ensures watches { IfOk result (λ _. Watches (view message) self.old.stage self.new.stage self.old.watches_files self.new.watches_files) }
        ensures kept { self.new.documents ≡ self.old.documents }
    {
        let null = Value::Null;
        let Some(id) = message.get("id") else {
            return Ok(Outcome::Nothing);
        };
        let params = params_or(&message, &null);
        match method {
            Method::Question(question) => Ok(Outcome::Ask(question, message)),
            Method::Initialize => Ok(Outcome::Reply(self.initialize(id, params)?)),
            Method::Shutdown => Ok(Outcome::Reply(self.shut_down(id)?)),
            _ => Ok(Outcome::Reply(self.refused(id, Refusal::InvalidRequest)?)),
        }
    }

    /// Refuses a request.
    fn refused(&self, id: &Value, why: Refusal) -> Result<Value, AllocError>
        ensures { IfOk result (λ made. IsReplyTo (view id.now) (view made)) }
    {
        refusal(self.alloc, id, why, text_of(why))
    }

    /// Takes a request, and returns its reply or leaves it to the service.
    fn request(&mut self, method: Method, message: Value) -> Result<Outcome, AllocError>
        requires { IsSome (get (codes "id") (view message)) }
        ensures step { IfOk result (λ out. IsStep self.old.stage out self.new.stage) }
        ensures one { IfOk result (λ out. (id : Data) → get (codes "id") (view message) ≡ Some id → AnswersRequest (view message) id out) }
        ensures left { IfOk result (λ out. (q : Question) → self.old.stage ≡ Stage.Ready → method ≡ Method.Question q → IsAsked q (view message) out) }
        ensures units { IfOk result (λ out. HaveUnits (view message) out self.old.stage self.new.stage self.old.encoding self.new.encoding) }
        ensures watches { IfOk result (λ _. Watches (view message) self.old.stage self.new.stage self.old.watches_files self.new.watches_files) }
        ensures kept { self.new.documents ≡ self.old.documents }
    {
        let why = match request_decision(self.stage, method) {
            Decision::Go => return Ok(self.go(method, message)?),
            Decision::Refuse(why) => why,
            Decision::Ignore | Decision::End(_) => Refusal::InvalidRequest,
        };
        match message.get("id") {
            None => Ok(Outcome::Nothing),
            Some(id) => Ok(Outcome::Reply(self.refused(id, why)?)),
        }
    }

    /// Takes a notification.
    #[tactic(auto, using(crate::proofs::Going::no_end, crate::proofs::Going::only_exit, crate::proofs::Going::exit_goes, crate::proofs::Going::exit_counts, crate::proofs::Going::exit_stands))]
    fn notified(&mut self, method: Method, message: &Value) -> Result<Outcome, AllocError>
        ensures silent { IfOk result (λ out. TakesNotification out) }
        ensures step { IfOk result (λ out. IsStep self.old.stage out self.new.stage) }
        ensures texts { IfOk result (λ out. TextsAre out (HasParamsEffect method (view message.now) self.old.encoding self.old.documents self.new.documents) self.old.documents self.new.documents) }
        ensures stage { self.new.stage ≡ self.old.stage }
        ensures units { self.new.encoding ≡ self.old.encoding }
        ensures watches { self.new.watches_files ≡ self.old.watches_files }
        ensures begun { IfOk result (λ out. IfBegun out (method ≡ Method.Initialized)) }
        ensures files { IfOk result (λ out. IfFiles out (AreFilesIn method (view message.now))) }
        ensures ended { IfOk result (λ out. IfEnded out (method ≡ Method.Exit)) }
        ensures ends { IfOk result (λ out. method ≡ Method.Exit → IsEnded out) }
        ensures ignored { IfOk result (λ out. self.old.stage ≡ Stage.Ready → IsNothingOnlyFor (IsIgnoredIn method (view message.now) self.old.encoding self.old.documents) out) }
        ensures err { OnErr result (SameTexts self.old.documents self.new.documents) }
    {
        match notification_decision(self.stage, method) {
            Decision::End(status) => Ok(Outcome::Ended(status)),
            Decision::Ignore | Decision::Refuse(_) => Ok(Outcome::Nothing),
            Decision::Go => match message.get("params") {
                None => Ok(Outcome::Nothing),
                Some(params) => Ok(self.act(method, params)?),
            },
        }
    }
}

/// Returns the text of a refusal.
fn text_of(why: Refusal) -> &'static str {
    match why {
        Refusal::ParseError => "this isn't JSON",
        Refusal::InvalidRequest => "this request isn't valid now",
        Refusal::MethodNotFound => "this method isn't supported",
        Refusal::InvalidParams => "these parameters aren't valid",
        Refusal::NotInitialized => "the server isn't initialized",
        Refusal::RequestFailed => "this request failed",
        Refusal::RequestCancelled => "the client cancelled this request",
    }
}

impl Session {
    /// Takes what isn't a message, or is a reply of the client.
    fn unnamed(&self, message: &Value) -> Result<Outcome, AllocError>
        ensures { IfOk result (λ out. TakesOther (get (codes "id") (view message.now)) out) }
    {
        if is_reply(message) {
            return Ok(Outcome::Nothing);
        }
        let why = Refusal::InvalidRequest;
        match message.get("id") {
            Some(id) => Ok(Outcome::Reply(self.refused(id, why)?)),
            None => Ok(Outcome::Reply(self.refused(&Value::Null, why)?)),
        }
    }

    /// Refuses a body that can't be read.
    fn unread(&self) -> Result<Outcome, AllocError>
        ensures { IfOk result (λ out. RefusesMessage out) }
    {
        Ok(Outcome::Reply(self.refused(&Value::Null, Refusal::ParseError)?))
    }

    /// Takes a message.
    fn take_message(&mut self, message: Value) -> Result<Outcome, AllocError>
        ensures step { IfOk result (λ out. IsStep self.old.stage out self.new.stage) }
        ensures texts { IfOk result (λ out. TextsAre out (HasMessageEffect (view message) self.old.encoding self.old.documents self.new.documents) self.old.documents self.new.documents) }
        ensures units { IfOk result (λ out. HaveUnits (view message) out self.old.stage self.new.stage self.old.encoding self.new.encoding) }
        ensures watches { IfOk result (λ _. Watches (view message) self.old.stage self.new.stage self.old.watches_files self.new.watches_files) }
        ensures begun { IfOk result (λ out. IfBegun out (IsBegin (view message))) }
        ensures files { IfOk result (λ out. IfFiles out (AreFilesSaid (view message))) }
        ensures ended { IfOk result (λ out. IfEnded out (IsExit (view message))) }
        ensures ends { IfOk result (λ out. IsExit (view message) → IsEnded out) }
        ensures heard { IfOk result (λ out. IsHeard self.old.stage (view message) self.old.encoding self.old.documents out) }
        ensures err { OnErr result (SameTexts self.old.documents self.new.documents) }
        ensures left { IfOk result (λ out. IsLeft self.old.stage (view message) out) }
        ensures takes { IfOk result (λ out. Takes (view message) (method_of (view message)) (get (codes "id") (view message)) out) }
    {
        let method = match method_of(&message) {
            Some(name) => Method::of(name),
            None => return Ok(self.unnamed(&message)?),
        };
        if message.get("id").is_some() {
            return Ok(self.request(method, message)?);
        }
        Ok(self.notified(method, &message)?)
    }

    /// Takes the body of a frame.
    ///
    /// # Errors
    ///
    /// If memory runs out. The texts of all documents are as before then.
    pub fn take(&mut self, body: &[u8]) -> Result<Outcome, AllocError>
        ensures takes { IfOk result (λ out. TakesBody body.now out) }
        ensures left { IfOk result (λ out. IsLeftOf body.now (stage_of self.old) out) }
        ensures step { IfOk result (λ out. IsStep (stage_of self.old) out (stage_of self.new)) }
        ensures texts { IfOk result (λ out. TextsAre out (HasBodyEffect body.now (encoding_of self.old) (documents_of self.old) (documents_of self.new)) (documents_of self.old) (documents_of self.new)) }
        ensures units { IfOk result (λ out. HaveUnitsAfter body.now out (stage_of self.old) (stage_of self.new) (encoding_of self.old) (encoding_of self.new)) }
        ensures watches { IfOk result (λ _. WatchesAfter body.now (stage_of self.old) (stage_of self.new) (watches_files self.old) (watches_files self.new)) }
        ensures begun { IfOk result (λ out. IfBegun out (IsBody body.now IsBegin)) }
        ensures files { IfOk result (λ out. IfFiles out (λ uris. IsBody body.now (λ message. AreFilesSaid message uris))) }
        ensures ended { IfOk result (λ out. IfEnded out (IsBody body.now IsExit)) }
        ensures ends { IfOk result (λ out. EndsAfter body.now out) }
        ensures heard { IfOk result (λ out. IsBodyHeard body.now (stage_of self.old) (encoding_of self.old) (documents_of self.old) out) }
        ensures err { OnErr result (SameTexts (documents_of self.old) (documents_of self.new)) }
    {
        let text = match std::str::from_utf8(body) {
            Ok(text) => text,
            Err(_) => return Ok(self.unread()?),
        };
        match Value::from_str(self.alloc, text) {
            Ok(message) => Ok(self.take_message(message)?),
            Err(fault) => {
                if fault.is_memory() {
                    return Err(AllocError);
                }
                Ok(self.unread()?)
            }
        }
    }
}
