//! The documents that a client has open.
ghost use Rattle.std.specs.Prelude.{◌≡◌, [], List, ℕ, None, IfOk, OnErr, OnOk, option_map};
ghost use Rattle.hm_lsp_session.specs.Documents.{held_text, listed, IsHeldNow, IsNumberOf, SameTexts};

use std::alloc::{AllocError, Global};

/// A document of the client.
#[derive(Drop)]
pub struct Document {
    /// Its URI, as the client wrote it.
    pub uri: String,
    /// The version of its text.
    pub version: i64,
    /// Its text, or `None` if the client has closed it.
    pub text: Option<Vec<u8>>,
}

// Why: docs/DECISIONS.md, "Closed documents".
/// The documents that a client has opened, in the order in which it opened them first.
#[derive(Drop)]
pub struct Documents {
    items: Vec<Document>,
}

impl Documents {
    /// Returns no documents.
    pub fn new(alloc: Global) -> Documents
        ensures { listed result ≡ [] }
    {
        Documents {
            items: Vec::new(alloc),
        }
    }

    /// Returns the documents.
    pub fn as_slice(&self) -> &[Document]
        ensures { result.now ≡ listed self.now }
    {
        self.items.as_slice()
    }

    /// Returns the number of the document with this URI.
    fn find(&self, uri: &str) -> Option<usize>
        ensures { IsNumberOf self.now.items.items uri.now result }
    {
        'documents: for index in 0..self.items.len() {
            let document = &self.items[index];
            if document.uri.as_str() == uri {
                return Some(index);
            }
        }
        None
    }

    /// Returns the text of an open document.
    pub fn text_of(&self, uri: &str) -> Option<&[u8]>
        ensures { option_map (λ text. text.now) result ≡ held_text self.now uri.now }
    {
        match self.find(uri) {
            None => None,
            Some(index) => match &self.items[index].text {
                Some(text) => Some(text.as_slice()),
                None => None,
            },
        }
    }

    /// Gives a document a text, or closes it.
    ///
    /// # Errors
    ///
    /// If memory runs out. All documents are as before then.
    pub fn set(
        &mut self,
        alloc: Global,
        uri: &str,
        version: i64,
        text: Option<Vec<u8>>,
    ) -> Result<(), AllocError>
        ensures held { OnOk result (IsHeldNow self.old self.new uri.now (option_map (λ t. t.items) text)) }
        ensures err { OnErr result (SameTexts self.old self.new) }
    {
        match self.find(uri) {
            Some(index) => {
                self.items[index].set(version, text);
                Ok(())
            }
            None => {
                let document = Document {
                    uri: String::from_str(alloc, uri)?,
                    version,
                    text,
                };
                self.items.push(document)?;
                Ok(())
            }
        }
    }
}

impl Document {
    /// Gives the document another text.
    fn set(&mut self, version: i64, text: Option<Vec<u8>>)
        ensures uri { self.new.uri ≡ self.old.uri }
        ensures text { self.new.text ≡ text }
    {
        self.version = version;
        self.text = text;
    }
}
