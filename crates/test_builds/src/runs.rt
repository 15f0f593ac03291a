//! Runs with failing or slow readers and writers, and runs with numbers of workers that aren't allowed.
ghost use Rattle.std.specs.Prelude.{All};
ghost use Rattle.hm_run_io.specs.Watching.{IsFresh};

use crate::builds::{SKIPPED, SKIPPED_REPORT, TWO};
use crate::devices::{Short, Slow, Then};
use hm_build::{Options, run};
use hm_run_io::{RunFault, Watched};
use hm_run_sources::{Status, Trees};
use std::io::{Read, Write};
use std::sync::Wait;
use std::test::Fail;
use std::thread::Threads;

/// Two workers, no journal, and dropped trees.
const OPTIONS: Options = Options {
    workers: 2,
    journal: false,
    trees: Trees::Dropped,
};

/// Runs the checker. Has no contract, because the tests look at the result; so the proofs of the tests don't carry the contract of `run`.
fn ran<T: AllocGlobal + Threads + Wait + Sync, R: Read, W: Write>(
    rt: &T,
    readers: &mut [Watched<R>],
    writer: &mut Watched<W>,
    options: Options,
) -> Result<Status, RunFault>
    requires readers { All IsFresh readers.old }
    requires writer { IsFresh writer.old }
{
    run(rt, rt.alloc(), readers, writer, options)
}

#[test]
fn writes_nothing_after_a_failed_read(rt: HostRuntime) -> Result<(), Fail> {
    let alloc = rt.alloc();
    let mut readers = [
        Watched::new(Slow::new(TWO, 0)),
        Watched::new(Slow::new(SKIPPED, 1)),
        Watched::new(Slow::new(TWO, 0)),
    ];
    let mut printed = Vec::new(alloc);
    let mut writer = Watched::new(&mut printed);
    let ended = ran(&rt, readers.as_mut_slice(), &mut writer, OPTIONS);
    assert_eq!(rt; ended, Err(RunFault::Read));
    assert_eq!(rt; readers[2].reads(), 0);
    drop(writer);
    assert!(rt; printed.is_empty());
    Ok(())
}

#[test]
fn leaves_a_prefix_of_each_length(rt: HostRuntime) -> Result<(), Fail> {
    let alloc = rt.alloc();
    for room in 0..SKIPPED_REPORT.len() {
        let mut readers = [Watched::new(SKIPPED)];
        let mut device = Short::new(alloc, room, Then::Fails);
        let mut writer = Watched::new(&mut device);
        let ended = ran(&rt, readers.as_mut_slice(), &mut writer, OPTIONS);
        assert_eq!(rt; ended, Err(RunFault::Write), "at {room}");
        assert_eq!(rt; writer.failures(), 1, "at {room}");
        drop(writer);
        assert!(rt; device.taken.as_slice() == &SKIPPED_REPORT[..room]);
    }
    Ok(())
}

/// Sources with and without a syntax fault, each with a number of workers that isn't allowed.
const REFUSED: [(&[u8], usize); 4] = [
    (b"module A where { x = }", 0),
    (b"module A where { x = }", 17),
    (b"module A where { x = 1 }", 0),
    (b"module A where { x = 1 }", 17),
];

#[test]
fn refuses_numbers_of_workers(rt: HostRuntime) -> Result<(), Fail> {
    for (source, workers) in REFUSED {
        let mut readers = [Watched::new(source)];
        let mut printed = Vec::new(rt.alloc());
        let mut writer = Watched::new(&mut printed);
        let options = Options {
            workers,
            journal: false,
            trees: Trees::Left,
        };
        let ended = ran(&rt, readers.as_mut_slice(), &mut writer, options);
        assert_eq!(rt; ended, Err(RunFault::Workers));
        assert_eq!(rt; readers[0].reads(), 0);
        drop(writer);
        assert!(rt; printed.is_empty());
    }
    Ok(())
}
