//! Readers of the published interfaces.
ghost use Rattle.std.specs.Prelude.{◌≡◌, ◌≤◌, ◌^◌, ◌⊎◌, IfOk, IfErr, option_map};
ghost use Rattle.std.specs.Arc.{arc_value};
ghost use mathlib.Core.List.{IsPrefix};
ghost use Rattle.hm_store_published.specs.Publications.{IsLawful, entries_of, interface_in};

use crate::history::{Front, Naming};
use crate::published::{LookFault, Published, Sight};
use hm_types::Interface;
use left_right::ReadHandle;
use std::marker::Model;
use std::sync::Arc;

/// A reader, which looks up interfaces. Contracts see the list of publications that it has seen.
#[derive(Drop)]
pub struct Reader<J: Naming> {
    entrance: ReadHandle<Published<J>>,
    seen: Front<J>,
}

impl<J: Naming> Model for Reader<J> {
    ghost use Rattle.std.specs.Prelude.{List};
    ghost use Rattle.std.specs.Coded.{codes};
    ghost use Rattle.hm_syntax.specs.Codes.{coded_declaration};
    ghost use Rattle.hm_types.specs.Interfaces.{coded_exports};
    ghost use Rattle.hm_store_published.specs.declared.publication.Publication.{Publication};

    ghost Value = { List Publication };

    ghost coded = { Prim.hlevel (codes, coded_declaration, coded_exports) };

    ghost view = { λ r. r.seen };
}

/// The interface that a look-up found, and the number of journal entries up to the last publication that it saw.
#[derive(Drop)]
pub struct Found {
    pub interface: Option<Arc<Interface>>,
    pub entries: usize,
}

impl<J: Naming> Reader<J> {
    pub(crate) fn new(entrance: ReadHandle<Published<J>>, seen: Front<J>) -> Reader<J>
        ensures { result ≡ seen }
    {
        Reader { entrance, seen }
    }

    /// Adds the publications of this front to those that the reader has seen.
    pub fn learn(&mut self, front: &Front<J>)
        ensures kept { IsPrefix self.old self.new }
        ensures told { IsPrefix front.now self.new }
        ensures lawful { IsLawful J.modules J.plan self.new }
        // The reader sees the longer of the two lists, and nothing else.
        ensures exact { (self.new ≡ self.old) ⊎ (self.new ≡ front.now) }
    {
        self.seen = self.seen.longer(front);
    }

    /// Shows that the list that was seen is a prefix of this front, or the other way round.
    pub fn beside(&self, front: &Front<J>)
        ensures { IsPrefix self.now front.now ⊎ IsPrefix front.now self.now }
    {
        self.seen.beside(front);
    }

    // Why: docs/DECISIONS.md, "Looks continue".
    /// Looks up the interface of a module. Never waits.
    ///
    /// # Errors
    ///
    /// `NoEntry` if the reader isn't admitted, or reads a copy older than what it has seen. `Memory` if an `Arc` couldn't be copied. The reader
    /// has seen the same list after an error.
    pub fn look(&mut self, number: usize) -> Result<Found, LookFault>
        ensures list { IfOk result (λ _. IsPrefix self.old self.new) }
        ensures lawful { IsLawful J.modules J.plan self.new }
        ensures interface { IfOk result (λ f. option_map arc_value f.interface ≡ interface_in self.new number) }
        ensures entries { IfOk result (λ f. f.entries ≡ entries_of self.new) }
        ensures few { IfOk result (λ f. f.entries ≤ 2 ^ 62) }
        ensures err { IfErr result (λ _. self.new ≡ self.old) }
    {
        match enter(&mut self.entrance, &self.seen, number) {
            Ok(sight) => {
                let Sight {
                    front,
                    interface,
                    entries,
                } = sight;
                self.seen = front;
                Ok(Found { interface, entries })
            }
            Err(fault) => {
                let _count = self.seen.len();
                Err(fault)
            }
        }
    }
}

/// Enters the current copy, and finds the interface of a module there.
fn enter<J: Naming>(
    entrance: &mut ReadHandle<Published<J>>,
    seen: &Front<J>,
    number: usize,
) -> Result<Sight<J>, LookFault>
    ensures list { IfOk result (λ s. IsPrefix seen.now s.front × IsLawful J.modules J.plan s.front) }
    ensures interface { IfOk result (λ s. option_map arc_value s.interface ≡ interface_in s.front number) }
    ensures entries { IfOk result (λ s. s.entries ≡ entries_of s.front) }
    ensures few { IfOk result (λ s. s.entries ≤ 2 ^ 62) }
{
    match entrance.enter() {
        Some(guard) => guard.found(seen, number),
        None => Err(LookFault::NoEntry),
    }
}
