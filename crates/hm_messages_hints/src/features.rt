//! Words and marks of Haskell 98 that this language leaves out.
ghost use Rattle.std.specs.Prelude.{◌≡◌};
ghost use Rattle.hm_messages_hints.specs.Features.{feature_help, feature_of, feature_text};

/// A part of Haskell that isn't read.
#[derive(Clone, Copy, Debug, PartialEq, Eq)]
pub enum Feature {
    Class,
    Instance,
    Deriving,
    Default,
    Do,
    Fixity,
    Context,
    /// `<-` of a statement, a comprehension or a pattern guard.
    Generator,
}

/// Returns the part of Haskell that begins with this text, if it isn't read.
pub fn feature_of(text: &[u8]) -> Option<Feature>
    ensures { result ≡ feature_of text.now }
{
    if text == b"class".as_slice() {
        Some(Feature::Class)
    } else if text == b"instance".as_slice() {
        Some(Feature::Instance)
    } else if text == b"deriving".as_slice() {
        Some(Feature::Deriving)
    } else if text == b"default".as_slice() {
        Some(Feature::Default)
    } else if text == b"do".as_slice() {
        Some(Feature::Do)
    } else if text == b"infix".as_slice()
        || text == b"infixl".as_slice()
        || text == b"infixr".as_slice()
    {
        Some(Feature::Fixity)
    } else if text == b"=>".as_slice() {
        Some(Feature::Context)
    } else if text == b"<-".as_slice() {
        Some(Feature::Generator)
    } else {
        None
    }
}

impl Feature {
    /// Returns the first line of its message.
    pub(crate) fn text(self) -> &'static str
        ensures { result.now ≡ feature_text self }
    {
        match self {
            Feature::Class => "classes aren't supported",
            Feature::Instance => "instances aren't supported, because there are no classes",
            Feature::Deriving => "'deriving' isn't supported, because there are no classes",
            Feature::Default => "'default' is a reserved word, and isn't supported",
            Feature::Do => "'do' isn't supported, because there is no IO and no monad",
            Feature::Fixity => "operators can't be defined",
            Feature::Context => "a type can't have a context, because there are no classes",
            Feature::Generator => "'<-' isn't supported: a guard is an expression of type Bool",
        }
    }

    /// Returns what to write instead.
    pub(crate) fn help(self) -> &'static str
        ensures { result.now ≡ feature_help self }
    {
        match self {
            Feature::Class | Feature::Instance => "Pass the functions of a class as arguments.\n",
            Feature::Default =>
                "The last alternative of a `case` is `_ -> x`. There are no classes, so no type has a default.\n",
            Feature::Deriving => "Leave out `deriving` and the list after it.\n",
            Feature::Do => "Write a `let` or a `case`, or apply functions to each other.\n",
            Feature::Fixity =>
                "Define a function with a name, and write it before its arguments.\n",
            Feature::Context =>
                "Leave out `=>` and what is before it, and pass functions as arguments.\n",
            Feature::Generator => "Use `case`, or `map`, `filter` and `concatMap` for lists.\n",
        }
    }
}
