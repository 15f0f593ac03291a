//! What a use is.
ghost use Rattle.std.specs.Prelude.{◌≡◌};
ghost use Rattle.hm_uses_declarations.specs.Senses.{sense_of};

use hm_lex::Place;
use hm_scope_tables::EntityRef;
use hm_syntax::Name;
use hm_types::Text;
use hm_uses::NameKind;
use std::marker::Model;

/// What a name means at its place.
#[derive(Drop)]
pub enum Meaning<'a> {
    /// The local variable that is bound at this place, which for a function is its first clause's.
    Local(Place),
    /// The type variable that is bound at this place: a parameter of its declaration, or the first one of its name in its signature.
    TypeVariable(Place),
    /// An entity of this module or of an import.
    Entity(EntityRef<'a>),
    /// The module with this name.
    Module(&'a Text),
    /// What qualified names and export items `module N` begin with: the name of this module, or that of imports.
    Prefix(&'a Text),
    /// Nothing.
    Unbound,
    /// Two or more entities.
    Ambiguous,
}

/// A name that is written in a module, with what it means there.
#[derive(Drop)]
pub struct Use<'a> {
    name: &'a Name,
    kind: NameKind,
    binds: bool,
    meaning: Meaning<'a>,
}

impl<'a> Model for Use<'a> {
    ghost use Rattle.hm_uses_declarations.specs.Senses.{sense_of};
    ghost use Rattle.hm_uses.specs.Uses.{UseOf};

    ghost Value = { UseOf };

    ghost view = { λ u. record { mention = record { name = u.name.now; kind = u.kind; binds = u.binds }; sense = sense_of u.meaning } };
}

impl<'a> Use<'a> {
    /// Returns the use of a name.
    pub fn new(name: &'a Name, kind: NameKind, binds: bool, meaning: Meaning<'a>) -> Use<'a>
        ensures { result ≡ record { mention = record { name = name.now; kind = kind; binds = binds }; sense = sense_of meaning.entry } }
    {
        Use {
            name,
            kind,
            binds,
            meaning,
        }
    }

    /// Returns the name as it is written, with its place.
    pub fn name(&self) -> &'a Name
        ensures { result.now ≡ self.now.mention.name }
    {
        self.name
    }

    /// Returns the kind of the name.
    pub fn kind(&self) -> NameKind
        ensures { result ≡ self.now.mention.kind }
    {
        self.kind
    }

    /// Returns whether the name is bound or declared here.
    pub fn binds(&self) -> bool
        ensures { result ≡ self.now.mention.binds }
    {
        self.binds
    }

    /// Returns what the name means.
    pub fn meaning(&self) -> &Meaning<'a>
        ensures { sense_of result.now ≡ self.now.sense }
    {
        &self.meaning
    }
}
