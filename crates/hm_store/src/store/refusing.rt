//! Decides whether an outcome is refused.
ghost use Rattle.std.specs.Prelude.{◌≡◌, ◌↔◌, IsTrue, Some, map, slice_get};
ghost use Rattle.std.specs.Arc.{arc_value};
ghost use Rattle.hm_store.specs.Builds.{IsOf, Refuses, interface_at};

use super::Store;
use crate::object::{Refusal, Status};
use hm_syntax::Module;
use hm_syntax_equality::is_same_module;
use hm_types::Interface;
use hm_verdicts::Outcome;
use std::sync::Arc;

impl Store {
    /// Returns why the store refuses this outcome from this worker, or `None` if it accepts it.
    pub fn refusal(&self, worker: usize, number: usize, outcome: &Outcome) -> Option<Refusal>
        ensures { Refuses self.now worker number outcome.now result }
    {
        if self.status_or_skipped(number) != Status::Claimed(worker) {
            return Some(Refusal::NotYours);
        }
        if !self.is_of(number, outcome) {
            return Some(Refusal::Stranger);
        }
        None
    }

    /// Returns whether an outcome is that of a module for the published interfaces of its imports.
    fn is_of(&self, number: usize, outcome: &Outcome) -> bool
        ensures { IsTrue result ↔ IsOf self.now number outcome.now }
    {
        self.is_module(number, outcome.module())
            && self.are_published(self.plan.imports(number), outcome.imports())
    }

    /// Returns whether the module with this number is this tree.
    fn is_module(&self, number: usize, other: &Module) -> bool
        ensures { IsTrue result ↔ (slice_get self.now.modules number ≡ Some other.now) }
    {
        match self.modules.get(number) {
            Some(module) => is_same_module(module, other),
            None => false,
        }
    }

    /// Returns whether these are the published interfaces of the modules with these numbers, in order.
    #[tactic(auto, using(crate::proofs::Lists::maps_more, crate::proofs::Lists::maps_at, crate::proofs::Lists::maps_length))]
    fn are_published(&self, numbers: &[usize], interfaces: &[Arc<Interface>]) -> bool
        ensures { IsTrue result ↔ (map (λ f. Some (arc_value f)) interfaces.now ≡ map (interface_at self.now.kept) numbers.now) }
    {
        if numbers.len() != interfaces.len() {
            return false;
        }
        for place in 0..numbers.len() {
            if !self.is_published(numbers[place], &interfaces[place]) {
                return false;
            }
        }
        true
    }

    /// Returns whether this is the published interface of the module with this number.
    fn is_published(&self, number: usize, interface: &Interface) -> bool
        ensures { IsTrue result ↔ (interface_at self.now.kept number ≡ Some interface.now) }
    {
        match self.look(number) {
            Some(published) => published.is_same(interface),
            None => false,
        }
    }
}
