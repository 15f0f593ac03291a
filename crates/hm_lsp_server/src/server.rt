//! The server: the session of a client, and the sources that are held for it.

ghost use Rattle.std.specs.Prelude.{◌≡◌, ◌++◌, [], IfOk, IsTrue, List, None, OnErr, OnOk, Some, codes, false, map, option_map, true};
ghost use Rattle.percent_encoding.specs.Percent.{percent_decode};
ghost use Rattle.serde_json.specs.Data.{Data};
ghost use Rattle.serde_json.specs.Find.{get};
ghost use Rattle.serde_json.specs.View.{view};
ghost use Rattle.hm_lsp_results.specs.Asked.{subject_of};
ghost use Rattle.hm_lsp_session.specs.Replies.{IsReplyTo};
ghost use Rattle.hm_lsp_session.specs.Steps.{stage_of};
ghost use Rattle.hm_lsp_session.specs.declared.documents.Document.{Document};
ghost use Rattle.hm_lsp_sources.specs.Files.{IsFileRead};
ghost use Rattle.hm_lsp_sources.specs.Following.{AreFollowing, AreKept};
ghost use Rattle.hm_lsp_sources.specs.Held.{held_in, named_in};
ghost use Rattle.hm_service_places.specs.declared.checked.Checked.{Checked};
ghost use Rattle.hm_service_stand_ins.specs.StandIns.{MissesSome};
ghost use Rattle.hm_lsp_server.specs.Published.{AreOfCheck, IsPublished, IsSameButShown, IsShown, no_check_notice};
ghost use Rattle.hm_lsp_server.specs.Second.{AreGoodSince, IsSecondCheck, findings_in};
ghost use Rattle.hm_lsp_server.specs.Replied.{IsReplyOf};
ghost use Rattle.hm_lsp_server.specs.Served.{IsServed, IsServedBy, subject_in};
ghost use Rattle.hm_lsp_server.specs.Taken.{IsTakenFrom, replies_in};
ghost use Rattle.hm_lsp_server.specs.Steps.{IsSteppedBy};
ghost use Rattle.hm_lsp_server.specs.Servers.{HasFiles, IsCurrent, IsFileNoted, IsFollowing, IsNoted, IsOrderly, checked_of, documents_in, good_of, held_of, is_changed, session_of, sources_of};

use crate::second::{Checks, SecondCheck, check_after, check_again, checked_in, said_by};
use crate::taken::{Taken, registration};
use crate::telling::{Telling, tell};
use hm_lsp_results::{Asked, failure, replied};
use hm_lsp_session::{Outcome, Question, Session, Stage, notice};
use hm_lsp_sources::{Sources, uri_of};
use hm_service::{Checked, ServiceFault};
use hm_service_stand_ins::good_texts;
use serde_json::{Value, json};
use std::alloc::{AllocError, Global};
use std::sync::Wait;
use std::thread::Threads;

/// A file beside the documents, and its text.
#[derive(Drop)]
pub struct SourceFile {
    pub path: String,
    pub text: Vec<u8>,
}

/// Returns the sources of files.
fn sources_of_files<T: Threads>(
    rt: &T,
    alloc: Global,
    files: Vec<SourceFile>,
) -> Result<Sources, AllocError>
    ensures files { IfOk result (λ s. HasFiles files.items (named_in s)) }
    ensures following { IfOk result (λ s. AreFollowing [] (named_in s) (held_in s)) }
{
    let mut sources = Sources::new(alloc);
    'files: for file in files {
        let uri = uri_of(alloc, file.path.as_str())?;
        sources.add(rt, uri, file.text)?;
    }
    Ok(sources)
}

/// A server of one client.
#[derive(Drop)]
pub struct Server {
    alloc: Global,
    session: Session,
    sources: Sources,
    /// The URI under which the client shows diagnostics of each source, if it shows some.
    shown: Vec<Option<String>>,
    /// The last good text of each source, if it had one.
    good: Vec<Option<Vec<u8>>>,
    /// The last check, unless the texts have changed since.
    checked: Option<Checked>,
    /// The check of the texts before these, if there was one.
    last: Option<Checked>,
    /// The last second check, if the last diagnostics needed one.
    second: Option<Checked>,
    /// Whether the check of these texts failed. It isn't tried again before they change.
    has_failed: bool,
    /// Whether the texts have changed since the diagnostics were sent.
    is_changed: bool,
}

impl Server {
    /// Returns a server of these files, before its first message.
    pub fn new<T: Threads>(
        rt: &T,
        alloc: Global,
        files: Vec<SourceFile>,
    ) -> Result<Server, AllocError>
        ensures orderly { IfOk result IsOrderly }
        ensures files { IfOk result (λ s. HasFiles files.items (sources_of s)) }
        ensures following { IfOk result (IsFollowing []) }
        ensures documents { IfOk result (λ s. documents_in s ≡ []) }
        ensures stage { IfOk result (λ s. stage_of (session_of s) ≡ Stage.New) }
        ensures good { IfOk result (λ s. good_of s ≡ []) }
        ensures changed { IfOk result (λ s. is_changed s ≡ true) }
    {
        let sources = sources_of_files(rt, alloc, files)?;
        Ok(Server {
            alloc,
            session: Session::new(alloc),
            sources,
            shown: Vec::new(alloc),
            good: Vec::new(alloc),
            checked: None,
            last: None,
            second: None,
            has_failed: false,
            is_changed: true,
        })
    }

    /// Returns whether the client hasn't initialized the server.
    pub fn is_new(&self) -> bool
        ensures yes { IsTrue result → stage_of (session_of self.now) ≡ Stage.New }
        ensures no { result ≡ false → ¬ (stage_of (session_of self.now) ≡ Stage.New) }
    {
        self.session.stage() == Stage::New
    }

    /// Makes the check that of the texts before these, because a text or a URI is another.
    fn forget(&mut self)
        ensures checked { checked_of self.new ≡ None }
        ensures sources { self.new.sources ≡ self.old.sources }
        ensures shown { self.new.shown ≡ self.old.shown }
        ensures good { self.new.good ≡ self.old.good }
        ensures session { self.new.session ≡ self.old.session }
        ensures changed { is_changed self.new ≡ true }
    {
        self.last = self.checked.take().or(self.last.take());
        self.has_failed = false;
        self.is_changed = true;
    }

    // Why: docs/DECISIONS.md, "Bursts".
    /// Lets the sources follow the client's documents. If a text or a URI is another, there is no check of these texts any more.
    fn follow<T: Threads>(&mut self, rt: &T) -> Result<(), AllocError>
        requires current { IsCurrent self.old }
        requires followed { (documents : List Document) × IsFollowing documents self.old }
        ensures orderly { OnOk result (IsOrderly self.new) }
        ensures good { self.new.good ≡ self.old.good }
        ensures session { self.new.session ≡ self.old.session }
        ensures kept { OnOk result (AreKept (sources_of self.old) (sources_of self.new)) }
        ensures noted { OnOk result (IsNoted self.old self.new) }
    {
        let documents = self.session.documents().as_slice();
        let is_other = self.sources.follow(rt, documents)?;
        if !is_other {
            return Ok(());
        }
        self.forget();
        Ok(())
    }

    // Why: docs/DECISIONS.md, "Checks that fail".
    /// Checks the texts, unless that was tried. What hasn't changed since the last checks is taken from them.
    fn refresh<T: Threads + Wait + Sync>(&mut self, rt: &T)
        requires { IsCurrent self.old }
        ensures current { IsCurrent self.new }
        ensures sources { self.new.sources ≡ self.old.sources }
        ensures shown { self.new.shown ≡ self.old.shown }
        ensures good { self.new.good ≡ self.old.good }
        ensures session { self.new.session ≡ self.old.session }
        ensures changed { self.new.is_changed ≡ self.old.is_changed }
    {
        if self.checked.is_some() || self.has_failed {
            return;
        }
        let earlier = [self.last.as_ref(), self.second.as_ref()];
        match check_after(rt, self.alloc, self.sources.held(), &earlier) {
            Ok(checked) => self.checked = Some(checked),
            Err(_) => self.has_failed = true,
        }
    }

    /// Returns the reply to a request about the texts.
    fn reply_to<T: Threads + Wait + Sync>(
        &mut self,
        rt: &T,
        question: Question,
        request: &Value,
    ) -> Result<Value, AllocError>
        requires { IsCurrent self.old }
        ensures current { IsCurrent self.new }
        ensures sources { self.new.sources ≡ self.old.sources }
        ensures good { self.new.good ≡ self.old.good }
        ensures session { self.new.session ≡ self.old.session }
        ensures changed { self.new.is_changed ≡ self.old.is_changed }
        ensures served { IfOk result (λ made. (id : Data) → get (codes "id") (view request.now) ≡ Some id → IsServedBy self.new question (view request.now) id (view made)) }
        ensures reply { IfOk result (λ made. (id : Data) → get (codes "id") (view request.now) ≡ Some id → IsReplyTo id (view made)) }
    {
        self.refresh(rt);
        Ok(self.replied(rt, question, request)?)
    }

    /// Returns the reply to a request by the check of these texts, if there is one.
    fn replied<T: Threads + Wait + Sync>(
        &self,
        rt: &T,
        question: Question,
        request: &Value,
    ) -> Result<Value, AllocError>
        requires { IsCurrent self.now }
        ensures served { IfOk result (λ made. (id : Data) → get (codes "id") (view request.now) ≡ Some id → IsServedBy self.now question (view request.now) id (view made)) }
        ensures reply { IfOk result (λ made. (id : Data) → get (codes "id") (view request.now) ≡ Some id → IsReplyTo id (view made)) }
    {
        let Some(id) = request.get("id") else {
            return failure(self.alloc, &Value::Null);
        };
        let Some(checked) = &self.checked else {
            return failure(self.alloc, id);
        };
        let asked = self.asked(checked);
        replied(rt, &asked, question, id, request)
    }

    /// Returns what requests are about, by a check.
    fn asked<'a>(&'a self, checked: &'a Checked) -> Asked<'a>
        ensures { subject_of result ≡ subject_in self.now checked.now }
    {
        Asked {
            alloc: self.alloc,
            encoding: self.session.encoding(),
            sources: self.sources.named(),
            held: self.sources.held(),
            checked,
        }
    }

    /// Takes the body of a message, and returns what follows from it.
    ///
    /// # Errors
    ///
    /// If memory runs out, or no thread can start. A text of the client may be lost then, so the server should end.
    pub fn take<T: Threads + Wait + Sync>(
        &mut self,
        rt: &T,
        body: &[u8],
    ) -> Result<Taken, AllocError>
        requires orderly { IsOrderly self.old }
        ensures orderly { OnOk result (IsOrderly self.new) }
        ensures reply { IfOk result (λ t. IsReplyOf body.now (replies_in t)) }
        ensures served { IfOk result (λ t. IsServed self.old self.new body.now (replies_in t)) }
        ensures step { IfOk result (IsSteppedBy body.now (session_of self.old) (session_of self.new)) }
        ensures taken { IfOk result (IsTakenFrom (session_of self.new) body.now) }
        ensures kept { OnOk result (AreKept (sources_of self.old) (sources_of self.new)) }
        ensures good { good_of self.new ≡ good_of self.old }
        ensures noted { OnOk result (IsNoted self.old self.new) }
    {
        match self.session.take(body)? {
            Outcome::Reply(reply) => Ok(Taken::Reply(reply)),
            Outcome::Ask(question, request) => {
                Ok(Taken::Reply(self.reply_to(rt, question, &request)?))
            }
            Outcome::Changed => {
                self.follow(rt)?;
                Ok(Taken::Nothing)
            }
            Outcome::Begun => {
                if !self.session.watches_files() {
                    return Ok(Taken::Nothing);
                }
                Ok(Taken::Request(registration(self.alloc)?))
            }
            Outcome::Files(uris) => Ok(Taken::Files(uris)),
            Outcome::Nothing => Ok(Taken::Nothing),
            Outcome::Ended(status) => Ok(Taken::Ended(status)),
        }
    }

    /// Takes the text that the file with this URI has on the disk now, or that it isn't there. Its source has this text, unless a document of its name
    /// is open.
    ///
    /// # Errors
    ///
    /// If memory runs out, or no thread can start. A text of the client may be lost then, so the server should end.
    pub fn read_file<T: Threads>(
        &mut self,
        rt: &T,
        uri: &str,
        file: Option<Vec<u8>>,
    ) -> Result<(), AllocError>
        requires orderly { IsOrderly self.old }
        ensures orderly { OnOk result (IsOrderly self.new) }
        ensures read { OnOk result (IsFileRead (percent_decode uri.now) (option_map (λ t. t.items) file) (sources_of self.old) (sources_of self.new)) }
        ensures session { session_of self.new ≡ session_of self.old }
        ensures good { good_of self.new ≡ good_of self.old }
        ensures noted { OnOk result (IsFileNoted self.old self.new) }
    {
        let documents = self.session.documents().as_slice();
        let is_other = self.sources.read_file(rt, documents, uri, file)?;
        if !is_other {
            return Ok(());
        }
        self.forget();
        Ok(())
    }

    /// Adds the diagnostics of all sources, if the texts have changed since the last call and the client has initialized the server. They are those of a
    /// check of the texts, and of a second one for modules that the first has missed. If a check fails, a message says so. If it is the first one, the
    /// client shows the diagnostics of before.
    ///
    /// # Errors
    ///
    /// If memory runs out for what is sent or for a good text.
    pub fn publish<T: Threads + Wait + Sync>(
        &mut self,
        rt: &T,
        sent: &mut Vec<Value>,
    ) -> Result<(), AllocError>
        requires orderly { IsOrderly self.old }
        ensures orderly { IsOrderly self.new }
        ensures held { held_of self.new ≡ held_of self.old }
        ensures sources { sources_of self.new ≡ sources_of self.old }
        ensures session { session_of self.new ≡ session_of self.old }
        ensures published { OnOk result ((new : List Data) × (map view sent.new.items ≡ map view sent.old.items ++ new) × IsPublished self.old self.new new) }
    {
        if !self.is_changed || self.session.stage() != Stage::Ready {
            return Ok(());
        }
        self.is_changed = false;
        self.refresh(rt);
        self.note_good()?;
        Ok(self.tell(rt, sent)?)
    }

    /// Keeps the last good texts after the check of these texts, if there is one.
    fn note_good(&mut self) -> Result<(), AllocError>
        requires { IsCurrent self.old }
        ensures current { IsCurrent self.new }
        ensures good { OnOk result (AreGoodSince (held_of self.old) (checked_of self.old) (good_of self.old) (good_of self.new)) }
        ensures checked { self.new.checked ≡ self.old.checked }
        ensures sources { self.new.sources ≡ self.old.sources }
        ensures shown { self.new.shown ≡ self.old.shown }
        ensures session { self.new.session ≡ self.old.session }
        ensures changed { self.new.is_changed ≡ self.old.is_changed }
    {
        let Some(checked) = &self.checked else {
            return Ok(());
        };
        let said = said_by(checked);
        let good = good_texts(self.alloc, &said, self.sources.held(), self.good.as_slice())?;
        self.good = good;
        Ok(())
    }

    /// Makes the second check of these texts after the first one, if it is needed.
    fn second<T: Threads + Wait + Sync>(
        &self,
        rt: &T,
        checked: &Checked,
    ) -> Result<Option<SecondCheck>, ServiceFault>
        ensures err { OnErr result (MissesSome (findings_in checked.now) (held_of self.now)) }
        ensures second { IfOk result (IsSecondCheck (held_of self.now) checked.now (good_of self.now)) }
    {
        let held = self.sources.held();
        let good = self.good.as_slice();
        let checks = Checks {
            first: checked,
            last: self.last.as_ref(),
            second: self.second.as_ref(),
        };
        Ok(check_again(rt, self.alloc, held, &checks, good)?)
    }

    /// Adds the diagnostics of all sources by the checks of these texts, and the message that one failed.
    fn tell<T: Threads + Wait + Sync>(
        &mut self,
        rt: &T,
        sent: &mut Vec<Value>,
    ) -> Result<(), AllocError>
        requires { IsCurrent self.old }
        ensures kept { IsSameButShown self.old self.new }
        ensures published { OnOk result ((new : List Data) × (map view sent.new.items ≡ map view sent.old.items ++ new) × IsShown self.old self.new new) }
    {
        let Some(checked) = &self.checked else {
            sent.push(no_check(self.alloc)?)?;
            return Ok(());
        };
        match self.second(rt, checked) {
            Ok(second) => {
                self.tell_both(&second, sent)?;
                self.second = checked_in(second);
                Ok(())
            }
            Err(_) => {
                sent.push(no_check(self.alloc)?)?;
                Ok(self.tell_both(&None, sent)?)
            }
        }
    }

    /// Adds the diagnostics of all sources by the check of these texts and by a second one, if there is one.
    fn tell_both(
        &mut self,
        second: &Option<SecondCheck>,
        sent: &mut Vec<Value>,
    ) -> Result<(), AllocError>
        requires { IsCurrent self.old }
        ensures kept { IsSameButShown self.old self.new }
        ensures published { OnOk result ((new : List Data) × (map view sent.new.items ≡ map view sent.old.items ++ new)
            × ((c : Checked) → checked_of self.old ≡ Some c → AreOfCheck self.old self.new c second.now new)) }
    {
        let Some(checked) = &self.checked else {
            return Ok(());
        };
        let telling = Telling {
            alloc: self.alloc,
            encoding: self.session.encoding(),
            sources: self.sources.named(),
            held: self.sources.held(),
            checked,
            second: second.as_ref(),
        };
        let shown = tell(&telling, self.shown.as_slice(), sent)?;
        self.shown = shown;
        Ok(())
    }
}

/// Returns the message that a check failed.
fn no_check(alloc: Global) -> Result<Value, AllocError>
    ensures { IfOk result (λ made. view made ≡ no_check_notice) }
{
    let params =
        json!(in alloc; {"message": "hmc couldn't check these sources. Memory may have run out", "type": 1})?;
    notice(alloc, "window/showMessage", params)
}
