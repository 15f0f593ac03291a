//! Builds by several workers: their checks run at the same time, and each module is checked once.
use hm_build::{BuildFault, Finished, Gate, Open, build, report};
use std::alloc::{AllocError, Global};
use std::process::Abort;
use std::sync::Wait;
use std::sync::atomic::{AtomicU64, Ordering};
use std::test::Fail;
use std::thread;
use std::thread::Threads;

/// A module after the one that imports it.
pub(crate) const TWO: &[u8] = b"module A where { import B ; x = y }\nmodule B where { y = 'c' }";

/// Modules of which two are skipped.
pub(crate) const SKIPPED: &[u8] =
    b"module A where { x = y }\nmodule B where { import A ; import C }\nmodule C where { f x = x x }\nmodule D where { import B }";

/// Their report.
pub(crate) const SKIPPED_REPORT: &[u8] =
    b"faulty A\n  1:22 unbound y\nskipped B\n  by A\n  by C\nfaulty C\n  3:18 type f\nskipped D\n  by B\n4 modules: 0 good, 2 faulty, 2 skipped\n";

/// Six modules.
const SIX: &[u8] =
    b"module A where { x = 1 }\nmodule B (module A) where { import A }\nmodule C where { import A ; import B ; y = x }\nmodule D where { x = 'd' }\nmodule E where { import A ; import D ; y = 2 }\nmodule F where { import A ; import D ; y = x }";

/// Four modules without imports.
const FOUR: &[u8] =
    b"module A where { x = 1 }\nmodule B where { x = 1 }\nmodule C where { x = 1 }\nmodule D where { x = 1 }";

/// Three modules, of which the second has a type of 2^40 parts.
const TOO_LARGE: &[u8] =
    b"module A where { d x = (x, x) ; e x = d (d x) ; f x = e (e x) }\nmodule B where { import A ; g x = f (f x) ; h x = g (g x) ; i x = h (h x) ; k = i (h 1) }\nmodule C where { x = 1 }";

/// Returns one source.
fn source_of(alloc: Global, text: &[u8]) -> Result<Vec<Vec<u8>>, AllocError> {
    let mut sources = Vec::new(alloc);
    sources.push(Vec::from_slice(alloc, text)?)?;
    Ok(sources)
}

/// Builds the modules of one source.
fn built<G: Gate + Sync>(
    rt: &(impl AllocGlobal + Threads + Wait + Sync),
    text: &[u8],
    workers: usize,
    gate: &G,
) -> Result<Finished, Fail> {
    let alloc = rt.alloc();
    let sources = source_of(alloc, text)?;
    Ok(build(rt, alloc, sources, workers, gate).map_err(|_| "no build")?)
}

/// Returns the report of a build of the modules of one source.
fn reported<G: Gate + Sync>(
    rt: &(impl AllocGlobal + Threads + Wait + Sync),
    text: &[u8],
    workers: usize,
    gate: &G,
) -> Result<String, Fail> {
    let finished = built(rt, text, workers, gate)?;
    Ok(report(rt.alloc(), &finished)?)
}

/// A gate that holds each worker until a number of workers have entered, or many turns have passed. It counts the workers that waited in vain.
#[derive(Drop)]
struct Together {
    wanted: u64,
    entered: AtomicU64,
    late: AtomicU64,
}

impl Gate for Together {
    fn enter(&self, _worker: usize, _module: usize) {
        self.entered.fetch_add(1, Ordering::SeqCst);
        for _ in 0..10_000_000u64 {
            if self.entered.load(Ordering::SeqCst) >= self.wanted {
                return;
            }
            thread::yield_now();
        }
        self.late.fetch_add(1, Ordering::SeqCst);
    }
}

/// Builds modules that don't import each other with a worker for each, where no worker continues before all have entered. Compares the report
/// with that of one worker.
fn check_together(
    rt: &(impl Abort + AllocGlobal + Threads + Wait + Sync),
    text: &[u8],
    workers: usize,
) -> Result<(), Fail> {
    let gate = Together {
        wanted: workers as u64,
        entered: AtomicU64::new(0),
        late: AtomicU64::new(0),
    };
    let printed = reported(rt, text, workers, &gate)?;
    assert_eq!(rt; gate.late.load(Ordering::SeqCst), 0);
    let expected = reported(rt, text, 1, &Open)?;
    assert_eq!(rt; printed.as_str(), expected.as_str());
    Ok(())
}

#[test]
fn modules_are_checked_at_the_same_time(rt: HostRuntime) -> Result<(), Fail> {
    check_together(
        &rt,
        b"module A where { x = 1 }\nmodule B where { y = 2 }",
        2,
    )?;
    check_together(&rt, FOUR, 4)
}

/// A gate that counts how often each of six modules enters.
#[derive(Drop)]
struct Counting {
    entered: [AtomicU64; 6],
}

impl Gate for Counting {
    fn enter(&self, _worker: usize, module: usize) {
        if let Some(count) = self.entered.as_slice().get(module) {
            count.fetch_add(1, Ordering::SeqCst);
        }
    }
}

#[test]
fn each_module_is_checked_once(rt: HostRuntime) -> Result<(), Fail> {
    let gate = Counting {
        entered: [
            AtomicU64::new(0),
            AtomicU64::new(0),
            AtomicU64::new(0),
            AtomicU64::new(0),
            AtomicU64::new(0),
            AtomicU64::new(0),
        ],
    };
    let finished = built(&rt, SIX, 4, &gate)?;
    for count in gate.entered.as_slice() {
        assert_eq!(rt; count.load(Ordering::SeqCst), 1);
    }
    assert_eq!(rt; finished.store.journal().len(), 12);
    assert_eq!(rt; finished.records.as_slice().len(), 4);
    Ok(())
}

/// Returns the number of the module for whose check a build had no memory.
fn exhausted_in(ended: &Result<Finished, BuildFault>) -> Option<usize> {
    match ended {
        Err(BuildFault::Exhausted(module)) => Some(module.number),
        _ => None,
    }
}

#[test]
fn a_module_that_there_is_no_memory_to_check_is_stated(rt: HostRuntime) -> Result<(), Fail> {
    for workers in 1..4 {
        let sources = source_of(rt.alloc(), TOO_LARGE)?;
        let told = exhausted_in(&build(&rt, rt.alloc(), sources, workers, &Open));
        assert_eq!(rt; told, Some(1));
    }
    Ok(())
}
