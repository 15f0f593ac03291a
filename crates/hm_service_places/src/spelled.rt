//! The guarantee that a build is of the modules that texts spell.
ghost use Rattle.std.specs.Prelude.{◌≡◌};
ghost use Rattle.hm_service_places.specs.Spelling.{IsRight, spelling_of};

use hm_build_stages::Finished;
use std::marker::Model;
use std::snapshot::Snapshot;

/// The guarantee that a build is of the modules that texts spell. It has no bytes.
///
/// A ghost field can't say so itself, because the fact may have several proofs.
#[derive(Drop)]
pub struct Spelled {
    texts: Snapshot<Vec<Vec<u8>>>,
    build: Snapshot<Finished>,
}

impl Model for Spelled {
    ghost use Rattle.std.specs.Coded.{codes};
    ghost use Rattle.hm_syntax.specs.Codes.{coded_declaration};
    ghost use Rattle.hm_service_places.specs.Spelling.{IsRight, Spelling, spelling_of};

    ghost Value = { Spelling };

    ghost coded = { Prim.hlevel (codes, coded_declaration) };

    ghost view = { λ s. spelling_of s.texts.value s.build.value };

    ghost invariant = { λ s. IsRight (spelling_of s.texts.value s.build.value) };
}

impl Spelled {
    /// Returns the guarantee for these texts and this build.
    pub fn of(texts: &Vec<Vec<u8>>, build: &Finished) -> Spelled
        requires { IsRight (spelling_of texts.now build.now) }
        ensures { result ≡ spelling_of texts.now build.now }
    {
        Spelled {
            texts: Snapshot::of(texts),
            build: Snapshot::of(build),
        }
    }

    /// Shows that it is so.
    pub fn holds(&self)
        ensures { IsRight self.now }
    {
        let _ = &self.texts;
    }
}
