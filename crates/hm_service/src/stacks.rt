//! Checks on a thread whose stack is large enough for the source that nests deepest.
ghost use Rattle.std.specs.Prelude.{◌≡◌, ◌<◌, ◌≤◌, IfErr, IfOk, map};
ghost use Rattle.hm_service.specs.Checks.{IsCheckOf};

use crate::earlier::EarlierChecks;
use crate::here::check_here;
use core::thread::Stack;
use hm_run_sources::Nesting;
use hm_service_places::{Checked, ServiceFault};
use hm_service_sources::HeldTexts;
use std::alloc::Global;
use std::snapshot::Snapshot;
use std::sync::Wait;
use std::thread;
use std::thread::{Promise, Threads};

/// What a thread promises: it returns a check of these texts.
#[derive(Drop)]
struct CheckOf {
    held: Snapshot<HeldTexts>,
    workers: usize,
}

impl Promise<Result<Checked, ServiceFault>> for CheckOf {
    ghost use Rattle.std.specs.Prelude.{IfOk, map};
    ghost use Rattle.hm_service.specs.Checks.{IsCheckOf};

    ghost kept_by = { λ p r. IfOk r (IsCheckOf p.workers p.held.value.unread.items (map (λ s. s.items) p.held.value.texts.items) (map (λ s. s.items) p.held.value.standing.items)) };
}

/// Returns the bytes of stack for a thread that works on the texts of a held set. If all texts can be read, they are the ones that stand for the sources.
fn stack_for(held: &HeldTexts) -> usize {
    let standing = Nesting::of(&held.standing).stack_size();
    if held.unread.is_empty() {
        return standing;
    }
    Nesting::of(&held.texts).stack_size().max(standing)
}

/// Returns what `check_here` returns, from a new thread with a large stack.
pub(crate) fn check_on_thread<T: Threads + Wait + Sync, E: EarlierChecks + Sync>(
    rt: &T,
    alloc: Global,
    held: HeldTexts,
    earlier: &E,
    workers: usize,
) -> Result<Checked, ServiceFault>
    requires { (0 < workers) × (workers ≤ 16) }
    ensures { IfOk result (IsCheckOf workers held.unread.items (map (λ s. s.items) held.texts.items) (map (λ s. s.items) held.standing.items)) }
{
    thread::scope(
        thread::scope_env(),
        rt,
        move |scope| -> Result<Checked, ServiceFault>
            requires { (0 < workers) × (workers ≤ 16) }
            ensures { IfOk result (IsCheckOf workers held.unread.items (map (λ s. s.items) held.texts.items) (map (λ s. s.items) held.standing.items)) }
        {
            let promise = CheckOf {
                held: Snapshot::of(&held),
                workers,
            };
            let thread = Stack::new().stack_size(stack_for(&held));
            let work = move ||
                requires { (0 < workers) × (workers ≤ 16) }
            { check_here(rt, alloc, &held, earlier, workers) };
            match thread.spawn_scoped_with(scope, promise, work) {
                Ok(checker) => checker.join(rt),
                Err(_) => Err(ServiceFault::NoWorker),
            }
        },
    )
}
