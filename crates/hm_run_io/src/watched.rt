//! Readers and writers that count the replies of their devices.
ghost use Rattle.std.specs.Prelude.{◌≡◌, ◌<◌, Ok, false, true, length, IfErr, IfOk, IsTrue, OnOk, OnErr};
ghost use Rattle.std.specs.Io.{ReadsAtMost, WritesAtMost};
ghost use Rattle.std.specs.Io.KnownBytes.{Keeps, ReadConsumes, WriteAppends};
ghost use Rattle.hm_run_io.specs.Counting.{more, one_more, CountsError};
ghost use Rattle.hm_run_io.specs.Watching.{device_of, reads_of, bytes_of, given_of, interrupts_of, failures_of, flushes_of, has_ended_of, is_flushed_of, IsFresh};

use std::io;
use std::io::{ErrorKind, Read, Write};
use std::snapshot::Snapshot;

// Why: docs/DECISIONS.md, "Results of devices".
/// A reader or a writer that returns each reply of its device, and counts it.
#[derive(Drop)]
pub struct Watched<D> {
    device: D,
    reads: u64,
    bytes: u64,
    interrupts: u64,
    failures: u64,
    flushes: u64,
    is_flushed: bool,
    has_ended: bool,
    given: Option<Snapshot<Vec<u8>>>,
}

impl<D> Watched<D> {
    /// Wraps a device, with all counts at 0.
    pub fn new(device: D) -> Watched<D>
        ensures device { device_of result ≡ device }
        ensures fresh { IsFresh result }
    {
        Watched {
            device,
            reads: 0,
            bytes: 0,
            interrupts: 0,
            failures: 0,
            flushes: 0,
            is_flushed: false,
            has_ended: false,
            given: None,
        }
    }

    /// Returns the number of reads.
    pub fn reads(&self) -> u64
        ensures { result ≡ reads_of self.now }
    {
        self.reads
    }

    /// Returns the number of bytes that were read.
    pub fn bytes(&self) -> u64
        ensures { result ≡ bytes_of self.now }
    {
        self.bytes
    }

    /// Returns the number of reads and writes that returned `Interrupted`.
    pub fn interrupts(&self) -> u64
        ensures { result ≡ interrupts_of self.now }
    {
        self.interrupts
    }

    /// Returns the number of failures: reads and writes with other errors, failed flushes, and writes that took no byte.
    pub fn failures(&self) -> u64
        ensures { result ≡ failures_of self.now }
    {
        self.failures
    }

    /// Returns the number of flushes.
    pub fn flushes(&self) -> u64
        ensures { result ≡ flushes_of self.now }
    {
        self.flushes
    }

    /// Returns whether a flush succeeded, and nothing was written or flushed since.
    pub fn is_flushed(&self) -> bool
        ensures { result ≡ is_flushed_of self.now }
    {
        self.is_flushed
    }

    // Why: docs/DECISIONS.md, "Bytes of a reader".
    /// Notes these bytes as those that the device gave. Only contracts see them.
    pub(crate) fn note_given(&mut self, given: &Vec<u8>)
        ensures given { given_of self.new ≡ given.now.items }
        ensures device { device_of self.new ≡ device_of self.old }
        ensures reads { reads_of self.new ≡ reads_of self.old }
        ensures count { bytes_of self.new ≡ bytes_of self.old }
        ensures interrupts { interrupts_of self.new ≡ interrupts_of self.old }
        ensures failures { failures_of self.new ≡ failures_of self.old }
        ensures flushes { flushes_of self.new ≡ flushes_of self.old }
        ensures flushed { is_flushed_of self.new ≡ is_flushed_of self.old }
        ensures ended { has_ended_of self.new ≡ has_ended_of self.old }
    {
        self.given = Some(Snapshot::of(given));
    }

    /// Counts a failure.
    fn count_failure(&mut self)
        ensures device { device_of self.new ≡ device_of self.old }
        ensures reads { reads_of self.new ≡ reads_of self.old }
        ensures count { bytes_of self.new ≡ bytes_of self.old }
        ensures interrupts { interrupts_of self.new ≡ interrupts_of self.old }
        ensures failures { failures_of self.new ≡ one_more (failures_of self.old) }
        ensures flushes { flushes_of self.new ≡ flushes_of self.old }
        ensures flushed { is_flushed_of self.new ≡ is_flushed_of self.old }
        ensures given { given_of self.new ≡ given_of self.old }
        ensures ended { has_ended_of self.new ≡ has_ended_of self.old }
    {
        self.failures = self.failures.saturating_add(1);
    }

    /// Counts an error of a read or a write.
    fn count_error(&mut self, error: &io::Error)
        ensures device { device_of self.new ≡ device_of self.old }
        ensures reads { reads_of self.new ≡ reads_of self.old }
        ensures count { bytes_of self.new ≡ bytes_of self.old }
        ensures flushes { flushes_of self.new ≡ flushes_of self.old }
        ensures flushed { is_flushed_of self.new ≡ is_flushed_of self.old }
        ensures given { given_of self.new ≡ given_of self.old }
        ensures ended { has_ended_of self.new ≡ has_ended_of self.old }
        ensures counts { CountsError error.now (interrupts_of self.old) (interrupts_of self.new) (failures_of self.old) (failures_of self.new) }
    {
        if error.kind() == ErrorKind::Interrupted {
            self.interrupts = self.interrupts.saturating_add(1);
        } else {
            self.count_failure();
        }
    }
}

impl<R: Read> Read for Watched<R> {
    ghost remaining = { λ w. R.remaining (device_of w) };

    fn read(&mut self, buf: &mut [u8]) -> io::Result<usize>
        ensures bound { ReadsAtMost result buf.new }
        ensures bytes { ReadConsumes (R.remaining (device_of self.old)) (R.remaining (device_of self.new)) result buf.new }
        ensures reads { reads_of self.new ≡ one_more (reads_of self.old) }
        ensures count { IfOk result (λ n. bytes_of self.new ≡ more (bytes_of self.old) n) }
        ensures none { OnErr result (bytes_of self.new ≡ bytes_of self.old) }
        ensures flushes { flushes_of self.new ≡ flushes_of self.old }
        ensures flushed { is_flushed_of self.new ≡ is_flushed_of self.old }
        ensures ok { OnOk result ((interrupts_of self.new ≡ interrupts_of self.old) × (failures_of self.new ≡ failures_of self.old)) }
        ensures err { IfErr result (λ e. CountsError e (interrupts_of self.old) (interrupts_of self.new) (failures_of self.old) (failures_of self.new)) }
        ensures given { given_of self.new ≡ given_of self.old }
        ensures ended { IfOk result (λ n. n ≡ 0 → 0 < length buf.new → has_ended_of self.new ≡ true) }
        ensures unended { has_ended_of self.new ≡ true → (result ≡ Ok 0) × (0 < length buf.new) }
    {
        self.reads = self.reads.saturating_add(1);
        let answer = self.device.read(buf);
        self.has_ended = matches!(&answer, Ok(0)) && !buf.is_empty();
        match &answer {
            Ok(count) => self.bytes = self.bytes.saturating_add(*count as u64),
            Err(error) => self.count_error(error),
        }
        answer
    }
}

impl<W: Write> Write for Watched<W> {
    ghost contents = { λ w. W.contents (device_of w) };

    fn write(&mut self, buf: &[u8]) -> io::Result<usize>
        ensures bound { WritesAtMost result buf.now }
        ensures bytes { WriteAppends (W.contents (device_of self.old)) (W.contents (device_of self.new)) result buf.now }
        ensures reads { reads_of self.new ≡ reads_of self.old }
        ensures count { bytes_of self.new ≡ bytes_of self.old }
        ensures flushes { flushes_of self.new ≡ flushes_of self.old }
        ensures unflushed { is_flushed_of self.new ≡ false }
        ensures none { IfOk result (λ n. n ≡ 0 → failures_of self.new ≡ one_more (failures_of self.old)) }
        ensures some { IfOk result (λ n. 0 < n → failures_of self.new ≡ failures_of self.old) }
        ensures ok { OnOk result (interrupts_of self.new ≡ interrupts_of self.old) }
        ensures err { IfErr result (λ e. CountsError e (interrupts_of self.old) (interrupts_of self.new) (failures_of self.old) (failures_of self.new)) }
    {
        self.is_flushed = false;
        let answer = self.device.write(buf);
        match &answer {
            Ok(0) => self.count_failure(),
            Ok(_) => {}
            Err(error) => self.count_error(error),
        }
        answer
    }

    // Why: docs/DECISIONS.md, "Flushes".
    fn flush(&mut self) -> io::Result<()>
        ensures bytes { Keeps (W.contents (device_of self.old)) (W.contents (device_of self.new)) }
        ensures reads { reads_of self.new ≡ reads_of self.old }
        ensures count { bytes_of self.new ≡ bytes_of self.old }
        ensures interrupts { interrupts_of self.new ≡ interrupts_of self.old }
        ensures flushes { flushes_of self.new ≡ one_more (flushes_of self.old) }
        ensures ok { OnOk result (failures_of self.new ≡ failures_of self.old) }
        ensures err { OnErr result (failures_of self.new ≡ one_more (failures_of self.old)) }
        ensures flushed { OnOk result (IsTrue (is_flushed_of self.new)) }
        ensures unflushed { OnErr result (is_flushed_of self.new ≡ false) }
    {
        self.flushes = self.flushes.saturating_add(1);
        let answer = self.device.flush();
        self.is_flushed = answer.is_ok();
        if answer.is_err() {
            self.count_failure();
        }
        answer
    }
}
