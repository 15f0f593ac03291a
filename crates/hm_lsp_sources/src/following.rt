//! Sources that follow the documents of a client.
ghost use Rattle.std.specs.Prelude.{◌≡◌, ◌<◌, ◌++◌, ◌∷◌, [], false, All, IfOk, IfSome, List, None, OnOk, length, option_map, string_bytes};
ghost use Rattle.percent_encoding.specs.Percent.{percent_decode};
ghost use Rattle.hm_lsp_sources.specs.Files.{IsFileRead, text_in};
ghost use Rattle.hm_lsp_sources.specs.Following.{AreFollowing, AreKept, HasSource, HasText, files_in, last_open, names_in, uris_in};
ghost use Rattle.hm_lsp_sources.specs.Held.{held_in, named_in};
ghost use Rattle.hm_lsp_sources.specs.Steps.{AreNamed, IsFilePlaced, IsFileSet, IsFollowedAt, IsFollowedBelow, IsGrown, IsPushed};

use crate::documents::{last_open, names_of};
use crate::source::{Source, name_of, number_of};
use hm_lsp_session::Document;
use hm_service_sources::{HeldSource, change};
use std::alloc::{AllocError, Global};
use std::thread::Threads;

/// The sources of a client, in the order of their numbers, and the texts that are held for them.
#[derive(Drop)]
pub struct Sources {
    alloc: Global,
    named: Vec<Source>,
    held: Vec<HeldSource>,
}

/// Gives a source a URI. Returns whether it is another one.
fn set_uri(alloc: Global, source: &mut Source, uri: &str) -> Result<bool, AllocError>
    ensures name { source.new.name ≡ source.old.name }
    ensures file { source.new.file ≡ source.old.file }
    ensures uri { OnOk result (string_bytes source.new.uri ≡ uri.now) }
    ensures same { IfOk result (λ is_other. is_other ≡ false → source.new ≡ source.old) }
{
    if source.uri.as_str() == uri {
        return Ok(false);
    }
    source.uri = String::from_str(alloc, uri)?;
    Ok(true)
}

/// Returns the text of a source by its last open document.
fn text_of<'a>(source: &'a Source, document: Option<&'a Document>) -> &'a [u8]
    ensures { HasText source.now.file.items (option_map (λ d. d.now) document.entry) result.now }
{
    let Some(document) = document else {
        return source.file.as_slice();
    };
    match &document.text {
        Some(text) => text.as_slice(),
        None => source.file.as_slice(),
    }
}

/// Gives a source the URI and the text of its last open document, or else the text of its file. Returns whether something is another.
fn follow_one<T: Threads>(
    rt: &T,
    alloc: Global,
    source: &mut Source,
    held: &mut HeldSource,
    document: Option<&Document>,
) -> Result<bool, AllocError>
    ensures name { source.new.name ≡ source.old.name }
    ensures file { source.new.file ≡ source.old.file }
    ensures uri { OnOk result (IfSome document.entry (λ d. string_bytes source.new.uri ≡ string_bytes d.now.uri)) }
    ensures own { OnOk result (document.entry ≡ None → source.new.uri ≡ source.old.uri) }
    ensures text { OnOk result (HasText source.old.file.items (option_map (λ d. d.now) document.entry) held.new.text.items) }
    ensures same { IfOk result (λ is_other. is_other ≡ false → (source.new ≡ source.old) × (held.new ≡ held.old)) }
{
    let is_renamed = match document {
        None => false,
        Some(document) => set_uri(alloc, source, document.uri.as_str())?,
    };
    let text = text_of(source, document);
    if held.text.as_slice() == text {
        return Ok(is_renamed);
    }
    let text = Vec::from_slice(alloc, text)?;
    match change(rt, alloc, held, text) {
        Ok(()) => Ok(true),
        Err(_) => Err(AllocError),
    }
}

/// Returns a held source with this text.
fn held_with<T: Threads>(rt: &T, alloc: Global, text: &[u8]) -> Result<HeldSource, AllocError>
    ensures { IfOk result (λ h. h.text.items ≡ text.now) }
{
    let mut held = HeldSource::new(alloc);
    let text = Vec::from_slice(alloc, text)?;
    match change(rt, alloc, &mut held, text) {
        Ok(()) => Ok(held),
        Err(_) => Err(AllocError),
    }
}

/// Returns the text of a file. One that isn't there has an empty text.
fn file_text(alloc: Global, file: Option<Vec<u8>>) -> Vec<u8>
    ensures { result.items ≡ text_in (option_map (λ t. t.items) file) }
{
    match file {
        Some(text) => text,
        None => Vec::new(alloc),
    }
}

impl Sources {
    /// Returns no sources.
    pub fn new(alloc: Global) -> Sources
        ensures named { named_in result ≡ [] }
        ensures held { held_in result ≡ [] }
    {
        Sources {
            alloc,
            named: Vec::new(alloc),
            held: Vec::new(alloc),
        }
    }

    /// Returns the sources.
    pub fn named(&self) -> &[Source]
        ensures { result.now ≡ named_in self.now }
    {
        self.named.as_slice()
    }

    /// Returns the texts that are held for the sources, in the same order.
    pub fn held(&self) -> &[HeldSource]
        ensures { result.now ≡ held_in self.now }
    {
        self.held.as_slice()
    }

    /// Adds a source with this URI, whose text is that of its file.
    fn push<T: Threads>(&mut self, rt: &T, uri: String, file: Vec<u8>) -> Result<(), AllocError>
        ensures { OnOk result (IsPushed (string_bytes uri) file.items self.old self.new) }
    {
        let name = name_of(self.alloc, uri.as_str())?;
        let held = held_with(rt, self.alloc, file.as_slice())?;
        self.held.push(held)?;
        self.named.push(Source { uri, name, file })?;
        Ok(())
    }

    /// Adds a source with this URI and with a file of this text.
    ///
    /// # Errors
    ///
    /// If memory ran out or no thread could start.
    pub fn add<T: Threads>(&mut self, rt: &T, uri: String, file: Vec<u8>) -> Result<(), AllocError>
        ensures names { OnOk result (names_in (named_in self.new) ≡ names_in (named_in self.old) ++ percent_decode (string_bytes uri) ∷ []) }
        ensures files { OnOk result (files_in (named_in self.new) ≡ files_in (named_in self.old) ++ file.items ∷ []) }
        ensures following { OnOk result ((documents : List Document) → AreFollowing documents (named_in self.old) (held_in self.old)
            → last_open documents (percent_decode (string_bytes uri)) ≡ None → AreFollowing documents (named_in self.new) (held_in self.new)) }
    {
        Ok(self.push(rt, uri, file)?)
    }

    /// Adds a source without a file for a document, if it is open and no source has its name. Returns whether one was added.
    fn add_missing<T: Threads>(&mut self, rt: &T, document: &Document) -> Result<bool, AllocError>
        ensures { IfOk result (λ is_added. IsGrown (HasSource (named_in self.new) document.now) is_added self.old self.new) }
    {
        if document.text.is_none() {
            return Ok(false);
        }
        let uri = document.uri.as_str();
        let name = name_of(self.alloc, uri)?;
        match number_of(self.named.as_slice(), name.as_slice()) {
            Some(_) => return Ok(false),
            None => {}
        }
        let uri = String::from_str(self.alloc, uri)?;
        self.push(rt, uri, Vec::new(self.alloc))?;
        Ok(true)
    }

    /// Adds the open documents that are no sources. Returns whether one was added.
    fn add_all<T: Threads>(&mut self, rt: &T, documents: &[Document]) -> Result<bool, AllocError>
        ensures { IfOk result (λ is_added. IsGrown (All (HasSource (named_in self.new)) documents.now) is_added self.old self.new) }
    {
        let mut is_added = false;
        'documents: for document in documents {
            if self.add_missing(rt, document)? {
                is_added = true;
            }
        }
        Ok(is_added)
    }

    /// Lets the source with this number follow a document. Returns whether something is another.
    fn follow_at<T: Threads>(
        &mut self,
        rt: &T,
        number: usize,
        document: Option<&Document>,
    ) -> Result<bool, AllocError>
        ensures { IfOk result (λ is_other. IsFollowedAt (option_map (λ d. d.now) document.entry) number is_other self.old self.new) }
    {
        if number >= self.named.len() || number >= self.held.len() {
            return Ok(false);
        }
        let source = &mut self.named[number];
        let held = &mut self.held[number];
        Ok(follow_one(rt, self.alloc, source, held, document)?)
    }

    /// Lets all sources follow these documents. Returns whether something is another.
    fn follow_all<T: Threads>(&mut self, rt: &T, documents: &[Document]) -> Result<bool, AllocError>
        ensures { IfOk result (λ is_other. IsFollowedBelow documents.now (length (named_in self.old)) is_other self.old self.new) }
    {
        let names = names_of(self.alloc, documents)?;
        let mut is_other = false;
        'sources: for number in 0..self.named.len() {
            let document = last_open(
                documents,
                names.as_slice(),
                self.named[number].name.as_slice(),
            );
            if self.follow_at(rt, number, document)? {
                is_other = true;
            }
        }
        Ok(is_other)
    }

    /// Lets the sources follow these documents, and adds those that are missing. Returns whether something is another.
    fn follow_named<T: Threads>(
        &mut self,
        rt: &T,
        documents: &[Document],
    ) -> Result<bool, AllocError>
        ensures following { OnOk result (AreNamed (named_in self.old) (held_in self.old) → AreFollowing documents.now (named_in self.new) (held_in self.new)) }
        ensures kept { OnOk result (AreKept (named_in self.old) (named_in self.new)) }
        ensures named { IfOk result (λ is_other. is_other ≡ false → named_in self.new ≡ named_in self.old) }
        ensures held { IfOk result (λ is_other. is_other ≡ false → held_in self.new ≡ held_in self.old) }
    {
        let is_added = self.add_all(rt, documents)?;
        let is_other = self.follow_all(rt, documents)?;
        Ok(is_added || is_other)
    }

    /// Gives the sources the texts of these documents, and adds those that are missing. Returns whether a text or a URI is another, or a source was
    /// added.
    ///
    /// # Errors
    ///
    /// If memory ran out or no thread could start. Some sources may follow the documents then and others not.
    pub fn follow<T: Threads>(&mut self, rt: &T, documents: &[Document]) -> Result<bool, AllocError>
        ensures following { OnOk result ((before : List Document) → AreFollowing before (named_in self.old) (held_in self.old)
            → AreFollowing documents.now (named_in self.new) (held_in self.new)) }
        ensures kept { OnOk result (AreKept (named_in self.old) (named_in self.new)) }
        ensures named { IfOk result (λ is_other. is_other ≡ false → named_in self.new ≡ named_in self.old) }
        ensures held { IfOk result (λ is_other. is_other ≡ false → held_in self.new ≡ held_in self.old) }
    {
        Ok(self.follow_named(rt, documents)?)
    }

    /// Gives a source the text of its file.
    fn set_file(&mut self, number: usize, file: Vec<u8>)
        requires { number < length (named_in self.old) }
        ensures { IsFileSet number file.items self.old self.new }
    {
        self.named[number].file = file;
    }

    /// Gives the source with this URI the text of its file, or adds one. Returns whether one was added.
    fn place_file<T: Threads>(
        &mut self,
        rt: &T,
        uri: &str,
        file: Option<Vec<u8>>,
    ) -> Result<bool, AllocError>
        ensures { IfOk result (λ is_added. IsFilePlaced (percent_decode uri.now) (option_map (λ t. t.items) file) is_added self.old self.new) }
    {
        let name = name_of(self.alloc, uri)?;
        match number_of(self.named.as_slice(), name.as_slice()) {
            Some(number) => {
                self.set_file(number, file_text(self.alloc, file));
                Ok(false)
            }
            None => match file {
                None => Ok(false),
                Some(text) => {
                    let uri = String::from_str(self.alloc, uri)?;
                    self.push(rt, uri, text)?;
                    Ok(true)
                }
            },
        }
    }

    /// Takes the text that the file with this URI has on the disk now, or that it isn't there, and lets the sources follow these documents. Returns
    /// whether a text or a URI is another, or a source was added.
    ///
    /// # Errors
    ///
    /// If memory ran out or no thread could start. Some sources may follow the documents then and others not.
    pub fn read_file<T: Threads>(
        &mut self,
        rt: &T,
        documents: &[Document],
        uri: &str,
        file: Option<Vec<u8>>,
    ) -> Result<bool, AllocError>
        ensures following { OnOk result ((before : List Document) → AreFollowing before (named_in self.old) (held_in self.old)
            → AreFollowing documents.now (named_in self.new) (held_in self.new)) }
        ensures read { OnOk result (IsFileRead (percent_decode uri.now) (option_map (λ t. t.items) file) (named_in self.old) (named_in self.new)) }
        ensures names { IfOk result (λ is_other. is_other ≡ false → names_in (named_in self.new) ≡ names_in (named_in self.old)) }
        ensures uris { IfOk result (λ is_other. is_other ≡ false → uris_in (named_in self.new) ≡ uris_in (named_in self.old)) }
        ensures held { IfOk result (λ is_other. is_other ≡ false → held_in self.new ≡ held_in self.old) }
    {
        let is_added = self.place_file(rt, uri, file)?;
        let is_other = self.follow_named(rt, documents)?;
        Ok(is_added || is_other)
    }
}
