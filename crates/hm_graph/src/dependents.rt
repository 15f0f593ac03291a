//! Finds the modules that import a module, directly or not, without allocating.

ghost use Rattle.std.specs.Prelude.{◌≡◌, ◌<◌, ◌^◌, ◌↔◌, ℕ, IfOk, length};
ghost use Rattle.hm_graph_components.specs.Digraph.{Reaches};
ghost use Rattle.hm_graph_components.specs.Marks.{IsMarked};

use crate::planning::Plan;
use hm_graph_components::mark_reached;
use std::alloc::{AllocError, Global};
use std::marker::Model;

/// A mark for each module, with memory for a search.
#[derive(Drop)]
pub struct Dependents {
    marks: Vec<bool>,
    waiting: Vec<usize>,
}

impl Model for Dependents {
    ghost use Rattle.std.specs.Prelude.{◌≡◌, ◌<◌, Bool, List, [], length};
    ghost use Rattle.std.specs.Vec.{vec_capacity};

    ghost Value = { List Bool };

    ghost view = { λ d. d.marks.items };

    ghost invariant = { λ d. (d.waiting.items ≡ []) × (length d.marks.items < vec_capacity d.waiting) };
}

impl Dependents {
    /// Returns marks for `count` modules, none of them set.
    pub fn new(alloc: Global, count: usize) -> Result<Dependents, AllocError>
        requires { count < 2 ^ 62 }
        ensures { IfOk result (λ marks. length marks ≡ count) }
    {
        let marks = vec![in alloc; false; count]?;
        let waiting = Vec::with_capacity(alloc, count + 1)?;
        Ok(Dependents { marks, waiting })
    }

    /// Marks exactly the modules that import this one, directly or through other modules.
    pub fn find(&mut self, plan: &Plan, number: usize)
        requires number { number < length plan.now }
        requires len { length self.old ≡ length plan.now }
        ensures len { length self.new ≡ length self.old }
        ensures marks { (k : ℕ) → IsMarked self.new k ↔ Reaches plan.now k number }
    {
        clear(&mut self.marks);
        mark_reached(
            plan.importer_rows(),
            number,
            &mut self.marks,
            &mut self.waiting,
        );
    }

    /// Returns the marks.
    pub fn marks(&self) -> &[bool]
        ensures { result.now ≡ self.now }
    {
        &self.marks
    }
}

/// Clears all marks.
fn clear(marks: &mut [bool])
    ensures len { length marks.new ≡ length marks.old }
    ensures clear { (k : ℕ) → ¬ IsMarked marks.new k }
{
    for place in 0..marks.len() {
        marks[place] = false;
    }
}
