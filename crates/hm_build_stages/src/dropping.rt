//! Drops the trees of a build by several threads.

use crate::Finished;
use crate::setting_up::lend_all;
use std::alloc::Global;
use std::sync::Wait;
use std::thread;
use std::thread::{Builder, Threads};

/// Drops these values: each thread that can be started drops a part, and this thread the rest.
fn drop_in_parts<T: Drop + Send, R: Threads + Wait + Sync>(
    rt: &R,
    alloc: Global,
    mut values: Vec<T>,
    threads: usize,
    stack: usize,
) {
    let parts = threads.min(values.len());
    let share = values.len() / parts.max(1);
    thread::scope(thread::scope_env(), rt, move |scope| {
        let Ok(mut others) = Vec::with_capacity(alloc, parts) else {
            return;
        };
        for _ in 1..parts {
            let left = values.len().saturating_sub(share);
            if let Ok(part) = values.split_off(left) {
                let thread = Builder::new().stack_size(stack);
                if let Ok(other) = thread.spawn_scoped(scope, move || drop(part)) {
                    let _ = others.push(other);
                }
            }
        }
        drop(values);
        for other in others {
            other.join(rt);
        }
    })
}

// Why: docs/DECISIONS.md, "Dropping".
/// Drops a build. Up to `threads` threads with stacks of this size drop its trees. If memory runs out, this thread drops all.
pub fn drop_by_threads<R: Threads + Wait + Sync>(
    rt: &R,
    alloc: Global,
    finished: Finished,
    threads: usize,
    stack: usize,
) {
    let Ok(modules) = lend_all(alloc, finished.modules()) else {
        return;
    };
    drop(finished);
    drop_in_parts(rt, alloc, modules, threads, stack);
}
