//! What a server does with a message, by how far its session is.
ghost use Rattle.std.specs.Prelude.{◌≡◌};
ghost use Rattle.hm_lsp_session.specs.Stages.{code_of, method_named, notification_decision, question_named, request_decision};

/// How far a session is.
#[derive(Clone, Copy, Debug, PartialEq, Eq)]
pub enum Stage {
    /// Before `initialize`.
    New,
    /// Between `initialize` and `shutdown`.
    Ready,
    /// After `shutdown`.
    ShutDown,
}

/// The requests about what texts mean.
#[derive(Clone, Copy, Debug, PartialEq, Eq)]
pub enum Question {
    Hover,
    Definition,
    References,
    DocumentHighlight,
    DocumentSymbol,
    CodeAction,
    Rename,
    PrepareRename,
    Completion,
    /// The only one about the whole folder.
    WorkspaceSymbol,
}

/// The methods that a server acts on.
#[derive(Clone, Copy, Debug, PartialEq, Eq)]
pub enum Method {
    Initialize,
    Initialized,
    Shutdown,
    Exit,
    DidOpen,
    DidChange,
    DidClose,
    DidChangeWatchedFiles,
    /// A request about what texts mean.
    Question(Question),
    /// All others.
    Unknown,
}

/// Why a request is refused.
#[derive(Clone, Copy, Debug, PartialEq, Eq)]
pub enum Refusal {
    ParseError,
    InvalidRequest,
    MethodNotFound,
    InvalidParams,
    NotInitialized,
    /// The request is valid, but it has no result.
    RequestFailed,
    /// The client cancelled the request.
    RequestCancelled,
}

/// What a server does with a message.
#[derive(Clone, Copy, Debug, PartialEq, Eq)]
pub enum Decision {
    /// It acts on the message.
    Go,
    /// It replies with an error.
    Refuse(Refusal),
    /// It does nothing.
    Ignore,
    /// It ends with this exit status.
    End(u8),
}

impl Refusal {
    /// Returns the code of the error.
    pub fn code(self) -> i64
        ensures { result ≡ code_of self }
    {
        match self {
            Refusal::ParseError => -32700,
            Refusal::InvalidRequest => -32600,
            Refusal::MethodNotFound => -32601,
            Refusal::InvalidParams => -32602,
            Refusal::NotInitialized => -32002,
            Refusal::RequestFailed => -32803,
            Refusal::RequestCancelled => -32800,
        }
    }
}

impl Question {
    /// Returns the request with this name.
    pub fn of(name: &str) -> Option<Question>
        ensures { result ≡ question_named name.now }
    {
        match name {
            "textDocument/hover" => Some(Question::Hover),
            "textDocument/definition" => Some(Question::Definition),
            "textDocument/references" => Some(Question::References),
            "textDocument/documentHighlight" => Some(Question::DocumentHighlight),
            "textDocument/documentSymbol" => Some(Question::DocumentSymbol),
            "textDocument/codeAction" => Some(Question::CodeAction),
            "textDocument/rename" => Some(Question::Rename),
            "textDocument/prepareRename" => Some(Question::PrepareRename),
            "textDocument/completion" => Some(Question::Completion),
            "workspace/symbol" => Some(Question::WorkspaceSymbol),
            _ => None,
        }
    }
}

impl Method {
    /// Returns the method with this name.
    pub fn of(name: &str) -> Method
        ensures { result ≡ method_named name.now }
    {
        match name {
            "initialize" => Method::Initialize,
            "initialized" => Method::Initialized,
            "shutdown" => Method::Shutdown,
            "exit" => Method::Exit,
            "textDocument/didOpen" => Method::DidOpen,
            "textDocument/didChange" => Method::DidChange,
            "textDocument/didClose" => Method::DidClose,
            "workspace/didChangeWatchedFiles" => Method::DidChangeWatchedFiles,
            _ => match Question::of(name) {
                Some(question) => Method::Question(question),
                None => Method::Unknown,
            },
        }
    }
}

/// Returns what a server does with a request.
pub fn request_decision(stage: Stage, method: Method) -> Decision
    ensures { result ≡ request_decision stage method }
{
    match stage {
        Stage::New => match method {
            Method::Initialize => Decision::Go,
            Method::Initialized
            | Method::Shutdown
            | Method::Exit
            | Method::DidOpen
            | Method::DidChange
            | Method::DidClose
            | Method::DidChangeWatchedFiles
            | Method::Question(_)
            | Method::Unknown => Decision::Refuse(Refusal::NotInitialized),
        },
        Stage::Ready => match method {
            Method::Initialize => Decision::Refuse(Refusal::InvalidRequest),
            Method::Shutdown | Method::Question(_) => Decision::Go,
            Method::Initialized
            | Method::Exit
            | Method::DidOpen
            | Method::DidChange
            | Method::DidClose
            | Method::DidChangeWatchedFiles
            | Method::Unknown => Decision::Refuse(Refusal::MethodNotFound),
        },
        Stage::ShutDown => Decision::Refuse(Refusal::InvalidRequest),
    }
}

/// Returns what a server does with a notification.
pub fn notification_decision(stage: Stage, method: Method) -> Decision
    ensures { result ≡ notification_decision stage method }
{
    match method {
        Method::Exit => match stage {
            Stage::ShutDown => Decision::End(0),
            Stage::New | Stage::Ready => Decision::End(1),
        },
        Method::Initialized
        | Method::DidOpen
        | Method::DidChange
        | Method::DidClose
        | Method::DidChangeWatchedFiles => match stage {
            Stage::Ready => Decision::Go,
            Stage::New | Stage::ShutDown => Decision::Ignore,
        },
        Method::Initialize | Method::Shutdown | Method::Question(_) | Method::Unknown => {
            match stage {
                Stage::New | Stage::Ready | Stage::ShutDown => Decision::Ignore,
            }
        }
    }
}
