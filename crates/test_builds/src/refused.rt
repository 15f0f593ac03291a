//! Single calls on builds, for `tests/refuse_allocations.py --tests`, which fails each of a test's allocations in turn.
//!
//! With enough memory each call has its right result. If the call itself runs out of memory, its test ends with an error of its own; before the
//! call, the error is "no memory". A test has no other end.
use crate::builds::{SKIPPED, SKIPPED_REPORT};
use hm_build::{BuildFault, Finished, Open, build, journal_text, report};
use std::alloc::{AllocError, Global};
use std::sync::Wait;
use std::test::Fail;
use std::thread::Threads;

/// The error of a test that runs out of memory before its call.
const NO_MEMORY: &str = "no memory";

/// The error of a test whose call runs out of memory.
const REFUSED: &str = "the call is refused";

/// Builds the modules of one source with two workers.
fn built(rt: &(impl AllocGlobal + Threads + Wait + Sync), text: &[u8]) -> Result<Finished, Fail> {
    let alloc: Global = rt.alloc();
    let mut sources = Vec::new(alloc);
    sources.push(Vec::from_slice(alloc, text)?)?;
    match build(rt, alloc, sources, 2, &Open) {
        Ok(finished) => Ok(finished),
        Err(BuildFault::Memory | BuildFault::Exhausted(_) | BuildFault::NoWorker) => {
            Err(Fail::from(NO_MEMORY))
        }
        Err(_) => Err(Fail::from("the build is refused")),
    }
}

/// Returns the result of a call whose only error is that memory ran out.
fn answered<T>(answer: Result<T, AllocError>) -> Result<T, Fail> {
    match answer {
        Ok(found) => Ok(found),
        Err(AllocError) => Err(Fail::from(REFUSED)),
    }
}

#[test]
fn audit_alone(rt: HostRuntime) -> Result<(), Fail> {
    let finished = built(&rt, SKIPPED)?;
    let records = finished.records.as_slice();
    assert!(rt; answered(finished.store.audit(rt.alloc(), records))?);
    Ok(())
}

#[test]
fn report_alone(rt: HostRuntime) -> Result<(), Fail> {
    let finished = built(&rt, SKIPPED)?;
    let text = answered(report(rt.alloc(), &finished))?;
    assert!(rt; text.as_bytes() == SKIPPED_REPORT);
    Ok(())
}

#[test]
fn journal_text_alone(rt: HostRuntime) -> Result<(), Fail> {
    let finished = built(&rt, b"module A where { x = 1 }")?;
    let text = answered(journal_text(rt.alloc(), &finished))?;
    assert!(rt;
        text.as_str() == "claim 0 A\npublish 0 A 0\n"
            || text.as_str() == "claim 1 A\npublish 1 A 0\n"
    );
    Ok(())
}
