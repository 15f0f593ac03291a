//! What a symbol is.
ghost use Rattle.std.specs.Prelude.{◌≡◌};

use hm_syntax::Name;
use std::marker::Model;

/// What a symbol names.
#[derive(Clone, Copy, Debug, PartialEq, Eq)]
pub enum SymbolKind {
    /// The module itself.
    Module,
    /// A type that `data` or `newtype` declares.
    DataType,
    /// A type synonym.
    Synonym,
    /// A constructor of a type.
    Constructor,
    /// A variable: a function or another value.
    Variable,
}

/// A name of a module or of something that it declares, at the place where it is declared.
#[derive(Drop)]
pub struct Symbol<'a> {
    kind: SymbolKind,
    name: &'a Name,
}

impl<'a> Model for Symbol<'a> {
    ghost use Rattle.hm_uses_symbols.specs.Symbols.{SymbolOf};

    ghost Value = { SymbolOf };

    ghost view = { λ s. record { kind = s.kind; name = s.name.now } };
}

impl<'a> Symbol<'a> {
    /// Returns the symbol of a name.
    pub fn new(kind: SymbolKind, name: &'a Name) -> Symbol<'a>
        ensures { result ≡ record { kind = kind; name = name.now } }
    {
        Symbol { kind, name }
    }

    /// Returns what it names.
    pub fn kind(&self) -> SymbolKind
        ensures { result ≡ self.now.kind }
    {
        self.kind
    }

    /// Returns the name, with its place.
    pub fn name(&self) -> &'a Name
        ensures { result.now ≡ self.now.name }
    {
        self.name
    }
}
