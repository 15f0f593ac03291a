//! Sizes of stacks, and runs of the plan on a thread whose stack is large enough for the source that nests deepest.
ghost use Rattle.std.specs.Prelude.{◌≡◌, IfErr, IfOk, map, string_bytes};
ghost use Rattle.hm_run_sources.specs.Runs.{IsPlanRun};

use crate::Trees;
use crate::answers::{Answer, plan_answer};
use crate::nesting::{levels_of, most_levels};
use hm_run_io::RunFault;
use std::alloc::Global;
use std::snapshot::Snapshot;
use std::thread::{Builder, Promise, Threads};

/// The bytes of stack for any sources.
const LEAST_STACK: usize = 7 << 22;

/// The further bytes of stack for a worker, because unification recurses as deep as types may nest.
const MORE_OF_WORKERS: usize = 11 << 22;

/// The bytes of stack for each level by which sources may nest. docs/DECISIONS.md says how this was found.
const STACK_PER_LEVEL: usize = 1 << 14;

/// A source of at most this many bytes isn't read: the stacks have room for any source of its length.
const SHORT: usize = 1 << 13;

/// The number of levels that a type may have for any sources.
const LEAST_DEPTH: usize = 33 << 10;

/// The further levels that a type may have for each level by which sources may nest.
const DEPTH_PER_LEVEL: usize = 2;

/// A bound on how deep sources nest, and the length of the longest source. Stacks and types have room for this.
#[derive(Clone, Copy, Debug, PartialEq, Eq)]
pub struct Nesting {
    levels: usize,
    longest: usize,
}

impl Nesting {
    // Why: docs/DECISIONS.md, "Levels of nesting".
    /// Measures sources, in one pass over the bytes of those that aren't short.
    pub fn of(sources: &[Vec<u8>]) -> Nesting {
        let mut levels = 0;
        let mut longest = 0;
        for source in sources {
            let most = most_levels(source.len());
            if source.len() <= SHORT {
                levels = most.max(levels);
            } else if most > levels {
                levels = levels_of(source.as_slice()).max(levels);
            }
            longest = source.len().max(longest);
        }
        Nesting { levels, longest }
    }

    /// Returns the levels of the trees of any of the sources, at most.
    pub fn levels(self) -> usize {
        self.levels
    }

    /// Returns the number of bytes of the longest source.
    pub fn longest(self) -> usize {
        self.longest
    }

    // Why: docs/DECISIONS.md, "Fixed parts".
    /// Returns the bytes of stack for a thread that works on the sources.
    pub fn stack_size(self) -> usize {
        self.levels
            .saturating_mul(STACK_PER_LEVEL)
            .saturating_add(LEAST_STACK)
    }

    /// Returns the bytes of stack for a worker that checks modules of the sources.
    pub fn worker_stack_size(self) -> usize {
        self.stack_size().saturating_add(MORE_OF_WORKERS)
    }

    /// Returns the number of levels that a type may have. `stack_size` and `worker_stack_size` suffice for it.
    pub fn depth_limit(self) -> usize {
        self.levels
            .saturating_mul(DEPTH_PER_LEVEL)
            .saturating_add(LEAST_DEPTH)
    }
}

/// What a thread promises: it returns the plan of these sources.
#[derive(Drop)]
struct PlanOf(Snapshot<Vec<Vec<u8>>>);

impl Promise<Result<Answer, RunFault>> for PlanOf {
    ghost use Rattle.std.specs.Prelude.{◌≡◌, IfErr, IfOk, map, string_bytes};
    ghost use Rattle.hm_run_sources.specs.Runs.{IsPlanRun};
    ghost use Rattle.hm_run_io.specs.declared.faults.RunFault.TheVariants.{Memory};

    ghost kept_by = { λ p r. IfOk r (λ a. IsPlanRun (map (λ s. s.items) p.0.value.items) a.status (string_bytes a.text)) × IfErr r (λ e. e ≡ Memory) };
}

/// Returns the text of the plan of a set of sources, or of their refusal. Fails like an allocation if there is no room for the stack.
pub(crate) fn plan_on_thread<T: Threads>(
    rt: &T,
    alloc: Global,
    sources: Vec<Vec<u8>>,
    trees: Trees,
) -> Result<Answer, RunFault>
    ensures ok { IfOk result (λ a. IsPlanRun (map (λ s. s.items) sources.items) a.status (string_bytes a.text)) }
    ensures err { IfErr result (λ e. e ≡ RunFault.Memory) }
{
    let promise = PlanOf(Snapshot::of(&sources));
    let thread = Builder::new().stack_size(Nesting::of(&sources).stack_size());
    match thread.spawn_with(rt, promise, move || { plan_answer(alloc, &sources, trees) }) {
        Ok(worker) => worker.join(rt),
        Err(_) => Err(RunFault::Memory),
    }
}
