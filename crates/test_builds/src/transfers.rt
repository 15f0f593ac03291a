//! Runs of the plan with failing or slow readers and writers.
ghost use Rattle.std.specs.Prelude.{All};
ghost use Rattle.hm_run_io.specs.Watching.{IsFresh};

use crate::devices::{Never, Short, Slow, Then};
use hm_run_io::{RunFault, Watched};
use hm_run_sources::{Status, Trees, run_plan};
use std::io;
use std::io::{ErrorKind, Read, Write};
use std::test::Fail;
use std::thread::Threads;

/// Prints the plan. Has no contract, because the tests look at the result; so their proofs don't carry the contract of `run_plan`.
fn planned<T: AllocGlobal + Threads, R: Read, W: Write>(
    rt: &T,
    readers: &mut [Watched<R>],
    writer: &mut Watched<W>,
) -> Result<Status, RunFault>
    requires readers { All IsFresh readers.old }
    requires writer { IsFresh writer.old }
{
    run_plan(rt, rt.alloc(), readers, writer, Trees::Dropped)
}

/// Returns the kind of an error, or `None` if there is no error.
fn kind_of<T: Copy>(answer: io::Result<T>) -> Option<ErrorKind> {
    match answer {
        Ok(_) => None,
        Err(error) => Some(error.kind()),
    }
}

/// A watched reader returns what its device returns: an interrupt, a byte, an interrupt, a failure.
#[test]
fn passes_on_what_a_reader_answers(rt: HostRuntime) -> Result<(), Fail> {
    let mut reader = Watched::new(Slow::new(b"ab", 4));
    let mut bytes = [0u8; 3];
    assert_eq!(rt;
        kind_of(reader.read(&mut bytes)),
        Some(ErrorKind::Interrupted)
    );
    assert_eq!(rt; kind_of(reader.read(&mut bytes)), None);
    assert_eq!(rt; bytes[0], b'a');
    assert_eq!(rt;
        kind_of(reader.read(&mut bytes)),
        Some(ErrorKind::Interrupted)
    );
    assert_eq!(rt; kind_of(reader.read(&mut bytes)), Some(ErrorKind::Other));
    Ok(())
}

/// A watched writer returns what its device returns: a byte is taken, then an interrupt.
#[test]
fn passes_on_what_a_writer_answers(rt: HostRuntime) -> Result<(), Fail> {
    let mut device = Short::new(rt.alloc(), 1, Then::IsInterrupted);
    let mut writer = Watched::new(&mut device);
    assert_eq!(rt; kind_of(writer.write(b"ab")), None);
    assert_eq!(rt; kind_of(writer.write(b"b")), Some(ErrorKind::Interrupted));
    assert_eq!(rt; kind_of(writer.flush()), None);
    assert_eq!(rt; writer.flushes(), 1);
    Ok(())
}

#[test]
fn passes_on_a_failed_flush(rt: HostRuntime) -> Result<(), Fail> {
    let mut device = Short::new(rt.alloc(), 0, Then::FailsToFlush);
    let mut writer = Watched::new(&mut device);
    assert_eq!(rt; kind_of(writer.write(b"b")), Some(ErrorKind::Other));
    assert_eq!(rt; kind_of(writer.flush()), Some(ErrorKind::Other));
    assert_eq!(rt; writer.flushes(), 1);
    Ok(())
}

const SOURCE: &[u8] = b"module A where { import B ; x = y }\nmodule B where { y = 1 }\n";

const TEXT: &[u8] = b"module A\n  import B\nmodule B\n2 modules\n";

#[test]
fn reads_byte_by_byte(rt: HostRuntime) -> Result<(), Fail> {
    let mut readers = [Watched::new(Slow::new(SOURCE, 0))];
    let mut printed = Vec::new(rt.alloc());
    let mut writer = Watched::new(&mut printed);
    let ended = planned(&rt, readers.as_mut_slice(), &mut writer);
    assert_eq!(rt; ended, Ok(Status::Good));
    drop(writer);
    assert!(rt; printed.as_slice() == TEXT);
    assert_eq!(rt; readers[0].reads(), 124);
    assert_eq!(rt; readers[0].interrupts(), 62);
    assert_eq!(rt; readers[0].failures(), 0);
    Ok(())
}

#[test]
fn answers_a_failed_read(rt: HostRuntime) -> Result<(), Fail> {
    for at in 1..124u64 {
        let mut readers = [Watched::new(Slow::new(SOURCE, at))];
        let mut device = Short::new(rt.alloc(), 9, Then::Fails);
        let mut writer = Watched::new(&mut device);
        let ended = planned(&rt, readers.as_mut_slice(), &mut writer);
        assert_eq!(rt; ended, Err(RunFault::Read), "at {at}");
        assert_eq!(rt; readers[0].failures(), 1, "at {at}");
        assert_eq!(rt; readers[0].reads(), at, "at {at}");
        drop(writer);
        assert!(rt; device.taken.is_empty());
    }
    Ok(())
}

#[test]
fn reads_no_further_than_a_failed_reader(rt: HostRuntime) -> Result<(), Fail> {
    let mut readers = [
        Watched::new(Slow::new(SOURCE, 0)),
        Watched::new(Slow::new(SOURCE, 3)),
        Watched::new(Slow::new(SOURCE, 0)),
    ];
    let mut device = Short::new(rt.alloc(), 9, Then::Fails);
    let mut writer = Watched::new(&mut device);
    let ended = planned(&rt, readers.as_mut_slice(), &mut writer);
    assert_eq!(rt; ended, Err(RunFault::Read));
    assert_eq!(rt; readers[2].reads(), 0);
    drop(writer);
    assert!(rt; device.taken.is_empty());
    Ok(())
}

#[test]
fn gives_up_an_endless_reader(rt: HostRuntime) -> Result<(), Fail> {
    let mut readers = [Watched::new(Never)];
    let mut device = Short::new(rt.alloc(), 9, Then::Fails);
    let mut writer = Watched::new(&mut device);
    let ended = planned(&rt, readers.as_mut_slice(), &mut writer);
    assert_eq!(rt; ended, Err(RunFault::Read));
    assert_eq!(rt; readers[0].reads(), 2_097_152);
    assert_eq!(rt; readers[0].interrupts(), 2_097_152);
    assert_eq!(rt; readers[0].failures(), 0);
    drop(writer);
    assert!(rt; device.taken.is_empty());
    Ok(())
}

#[test]
fn leaves_a_prefix_after_a_failed_write(rt: HostRuntime) -> Result<(), Fail> {
    for then in [Then::Fails, Then::TakesNone] {
        for room in 0..TEXT.len() {
            let mut readers = [Watched::new(SOURCE)];
            let mut device = Short::new(rt.alloc(), room, then);
            let mut writer = Watched::new(&mut device);
            let ended = planned(&rt, readers.as_mut_slice(), &mut writer);
            assert_eq!(rt; ended, Err(RunFault::Write), "at {room}");
            drop(writer);
            assert!(rt; device.taken.as_slice() == &TEXT[..room]);
        }
    }
    Ok(())
}

#[test]
fn gives_up_an_endless_writer(rt: HostRuntime) -> Result<(), Fail> {
    let mut readers = [Watched::new(SOURCE)];
    let mut device = Short::new(rt.alloc(), 5, Then::IsInterrupted);
    let mut writer = Watched::new(&mut device);
    let ended = planned(&rt, readers.as_mut_slice(), &mut writer);
    assert_eq!(rt; ended, Err(RunFault::Write));
    assert_eq!(rt; writer.interrupts(), 2_097_152);
    assert_eq!(rt; writer.failures(), 0);
    drop(writer);
    assert!(rt; device.taken.as_slice() == &TEXT[..5]);
    Ok(())
}

#[test]
fn answers_a_failed_flush(rt: HostRuntime) -> Result<(), Fail> {
    let mut readers: [Watched<&[u8]>; 0] = [];
    let mut device = Short::new(rt.alloc(), 99, Then::FailsToFlush);
    let mut writer = Watched::new(&mut device);
    let ended = planned(&rt, readers.as_mut_slice(), &mut writer);
    assert_eq!(rt; ended, Err(RunFault::Write));
    assert_eq!(rt; writer.failures(), 1);
    drop(writer);
    assert!(rt; device.taken.as_slice() == b"0 modules\n".as_slice());
    Ok(())
}
