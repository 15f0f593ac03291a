//! Where the modules of a source start.
ghost use Rattle.std.specs.Prelude.{◌≡◌, false, map, option_map, true};
ghost use Rattle.hm_messages.specs.ModuleStarts.{IsModuleAt, IsModuleAround, MayStart, start_of};

use hm_lex::Place;
use std::marker::Model;

/// The name of a module, the place of the name, and the number of its source, counted from 0.
#[derive(Clone, Copy, Debug)]
pub struct ModuleStart<'a> {
    pub source: usize,
    pub place: Place,
    pub name: &'a str,
}

/// A source with its modules in order, or with none if they aren't known. The type guarantees that they are those of the source.
#[derive(Drop)]
pub struct SourceModules<'a> {
    source: &'a [u8],
    starts: Vec<ModuleStart<'a>>,
}

impl<'a> Model for SourceModules<'a> {
    ghost use Rattle.std.specs.Prelude.{map};
    ghost use Rattle.hm_messages.specs.ModuleStarts.{KnownModules, MayStart, start_of};

    ghost Value = { KnownModules };

    ghost view = { λ s. record { source = s.source.now; starts = map start_of s.starts.items } };

    ghost invariant = { λ s. MayStart s.source.now (map start_of s.starts.items) };
}

impl<'a> SourceModules<'a> {
    /// Returns a source with these modules.
    pub(crate) fn new(source: &'a [u8], starts: Vec<ModuleStart<'a>>) -> SourceModules<'a>
        requires { MayStart source.now (map start_of starts.items) }
        ensures { result ≡ record { source = source.entry.now; starts = map start_of starts.entry.items } }
    {
        SourceModules { source, starts }
    }

    /// Returns the name of the module that a place is in: the last one whose name doesn't come after it.
    pub(crate) fn module_at(&self, place: Place) -> Option<&'a str>
        ensures among { IsModuleAt self.now.starts place (option_map (λ name. name.now) result) }
        ensures spelled { IsModuleAround self.now.source place (option_map (λ name. name.now) result) }
    {
        let mut low = 0usize;
        let mut high = self.starts.len();
        while low < high {
            let middle = low + (high - low) / 2;
            if place.is_before(self.starts[middle].place) {
                high = middle;
            } else {
                low = middle + 1;
            }
        }
        if low == 0 {
            return None;
        }
        Some(self.starts[low - 1].name)
    }
}
