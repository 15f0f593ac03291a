//! The table that readers read: the published interfaces by module number.
ghost use Rattle.std.specs.Prelude.{◌≡◌, [], ◌∷◌, ◌++◌, ◌^◌, ◌<◌, ◌≤◌, IfErr, IfOk, IsErrOf, None, length, option_map, replicate};
ghost use Rattle.std.specs.Arc.{arc_value};
ghost use mathlib.Core.List.{IsPrefix};
ghost use Rattle.hm_store_published.specs.Publications.{IsLawful, MayFollow, entries_of, interface_in};

use crate::history::{Front, History, Naming};
use crate::publication::Publication;
use hm_types::Interface;
use hm_verdicts::Verdict;
use left_right::Absorb;
use std::alloc::{AllocError, Global};
use std::marker::Model;
use std::sync::Arc;
use thiserror::Error;

// Why: docs/DECISIONS.md, "NoEntry".
/// Why a look-up fails. If several reasons apply, the first is returned.
#[derive(Clone, Copy, Debug, Error, PartialEq, Eq)]
pub enum LookFault {
    /// The reader wasn't admitted, or its copy is older than what the pass has seen. A build meets neither, because it updates the copies before a
    /// pass sees a publication.
    #[error("no entry")]
    NoEntry,
    /// Memory ran out.
    #[error("no memory")]
    Memory,
}

/// The result of a look-up: the list that was seen, the interface, and the number of journal entries up to the list's last publication.
#[derive(Drop)]
pub struct Sight<J: Naming> {
    pub front: Front<J>,
    pub interface: Option<Arc<Interface>>,
    pub entries: usize,
}

// Why: docs/DECISIONS.md, "Two copies".
/// The published interface of each module, with the list of the publications. Contracts see the list.
#[derive(Drop)]
pub struct Published<J: Naming> {
    front: Front<J>,
    interfaces: Vec<Option<Arc<Interface>>>,
    entries: usize,
}

impl<J: Naming> Model for Published<J> {
    ghost use Rattle.std.specs.Prelude.{List, map, option_map};
    ghost use Rattle.std.specs.Arc.{arc_value};
    ghost use Rattle.std.specs.Coded.{codes};
    ghost use Rattle.hm_syntax.specs.Codes.{coded_declaration};
    ghost use Rattle.hm_types.specs.Interfaces.{coded_exports};
    ghost use Rattle.hm_store_published.specs.declared.publication.Publication.{Publication};
    ghost use Rattle.hm_store_published.specs.Rules.{Shows};

    ghost Value = { List Publication };

    ghost coded = { Prim.hlevel (codes, coded_declaration, coded_exports) };

    ghost view = { λ p. p.front };

    ghost invariant = { λ p. Shows p.front (map (option_map arc_value) p.interfaces.items) p.entries };
}

/// The operation that adds a publication. Contracts see the list that ends with it.
#[derive(Drop)]
pub struct Step<J: Naming> {
    front: Front<J>,
    number: usize,
    interface: Arc<Interface>,
    entries: usize,
}

impl<J: Naming> Model for Step<J> {
    ghost use Rattle.std.specs.Prelude.{List};
    ghost use Rattle.std.specs.Arc.{arc_value};
    ghost use Rattle.std.specs.Coded.{codes};
    ghost use Rattle.hm_syntax.specs.Codes.{coded_declaration};
    ghost use Rattle.hm_types.specs.Interfaces.{coded_exports};
    ghost use Rattle.hm_store_published.specs.declared.publication.Publication.{Publication};
    ghost use Rattle.hm_store_published.specs.Rules.{EndsWith};

    ghost Value = { List Publication };

    ghost coded = { Prim.hlevel (codes, coded_declaration, coded_exports) };

    ghost view = { λ s. s.front };

    ghost invariant = { λ s. EndsWith s.front s.number (arc_value s.interface) s.entries };
}

impl<J: Naming> Step<J> {
    /// Returns the operation that adds a publication to the list of all, and adds it to that list. The front must have seen all publications.
    #[tactic(auto, using(crate::proofs::Showing::next_ends, crate::proofs::Lawful::few_before))]
    pub fn next(
        history: &History<J>,
        front: &Front<J>,
        publication: &Publication,
    ) -> Result<Step<J>, AllocError>
        requires place { publication.now.place < 2 ^ 62 }
        requires lawful { MayFollow J.modules J.plan front.now publication.now }
        ensures { IfOk result (λ s. s ≡ front.now ++ publication.now ∷ []) }
    {
        let Verdict::Good(interface) = publication.outcome.verdict() else {
            unreachable!()
        };
        let interface = Arc::try_clone(interface)?;
        // The list is lawful, so it has at most as many publications as the place of the next one.
        let _count = front.len();
        let mut front = front.again();
        if !front.add(history, publication) {
            return Err(AllocError);
        }
        Ok(Step {
            front,
            number: publication.number,
            interface,
            entries: publication.place + 1,
        })
    }

    /// Returns the list that ends with this publication.
    pub fn front(&self) -> Front<J>
        ensures { result ≡ self.now }
    {
        self.front.again()
    }
}

impl<J: Naming> Published<J> {
    /// Returns the table of `modules` modules, of which none is published.
    pub fn new(alloc: Global, front: Front<J>, modules: usize) -> Result<Published<J>, AllocError>
        requires { front ≡ [] }
        ensures { IfOk result (λ p. p ≡ []) }
    {
        let interfaces = no_interfaces(alloc, modules)?;
        Ok(Published {
            front,
            interfaces,
            entries: 0,
        })
    }

    /// Finds the interface of a module, for a reader that has seen this front.
    ///
    /// # Errors
    ///
    /// `NoEntry` if this copy is older than the front, and `Memory` if an `Arc` couldn't be copied.
    pub fn found(&self, seen: &Front<J>, number: usize) -> Result<Sight<J>, LookFault>
        ensures list { IfOk result (λ s. (s.front ≡ self.now) × IsPrefix seen.now s.front × IsLawful J.modules J.plan s.front) }
        ensures interface { IfOk result (λ s. option_map arc_value s.interface ≡ interface_in s.front number) }
        ensures entries { IfOk result (λ s. s.entries ≡ entries_of s.front) }
        ensures few { IfOk result (λ s. s.entries ≤ 2 ^ 62) }
        // Returns `NoEntry` only if this copy is older than what the reader has seen.
        ensures behind { IsErrOf result LookFault.NoEntry → length self.now < length seen.now }
    {
        if self.front.len() < seen.len() {
            return Err(LookFault::NoEntry);
        }
        let interface = match self.interfaces.get(number) {
            Some(Some(interface)) => Some(copy(interface)?),
            Some(None) | None => None,
        };
        Ok(Sight {
            front: self.front.longer(seen),
            interface,
            entries: self.entries,
        })
    }
}

fn copy(interface: &Arc<Interface>) -> Result<Arc<Interface>, LookFault>
    ensures ok { IfOk result (λ f. arc_value f ≡ arc_value interface.now) }
    ensures err { IfErr result (λ e. e ≡ LookFault.Memory) }
{
    match Arc::try_clone(interface) {
        Ok(interface) => Ok(interface),
        Err(AllocError) => Err(LookFault::Memory),
    }
}

/// Returns `count` times no interface.
fn no_interfaces(alloc: Global, count: usize) -> Result<Vec<Option<Arc<Interface>>>, AllocError>
    ensures { IfOk result (λ v. v.items ≡ replicate count None) }
{
    let mut interfaces = Vec::new(alloc);
    for _ in 0..count {
        interfaces.push(None)?;
    }
    Ok(interfaces)
}

impl<J: Naming> Absorb<Step<J>> for Published<J> {
    // A clause reads an array as a list of any length.
    type State = [Publication; 0];

    ghost state = { λ p. p };

    ghost applied = { λ ps step. step };

    fn absorb_first(
        &mut self,
        operation: &Step<J>,
        _other: &Published<J>,
    ) -> Result<(), AllocError> {
        if operation.number >= self.interfaces.len()
            || self.front.len() != operation.front.len() - 1
        {
            return Err(AllocError);
        }
        let interface = Arc::try_clone(&operation.interface)?;
        self.interfaces[operation.number] = Some(interface);
        self.entries = operation.entries;
        self.front = self.front.longer(&operation.front);
        Ok(())
    }
}
