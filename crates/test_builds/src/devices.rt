//! Readers and writers that fail.
use std::alloc::Global;
use std::io;
use std::io::{ErrorKind, Read, Write};

/// A reader of one byte per read, with an interrupt before each, which fails for good at one read.
#[derive(Drop)]
pub(crate) struct Slow {
    bytes: &'static [u8],
    is_ready: bool,
    asked: u64,
    fails_at: u64,
}

impl Slow {
    /// Returns a reader that fails at this read. Reads are counted from 1, so 0 never fails.
    pub(crate) fn new(bytes: &'static [u8], fails_at: u64) -> Slow {
        Slow {
            bytes,
            is_ready: false,
            asked: 0,
            fails_at,
        }
    }
}

impl Read for Slow {
    fn read(&mut self, buf: &mut [u8]) -> io::Result<usize> {
        self.asked = self.asked.saturating_add(1);
        if self.asked == self.fails_at {
            return Err(io::Error::from(ErrorKind::Other));
        }
        self.is_ready = !self.is_ready;
        if self.is_ready {
            return Err(io::Error::from(ErrorKind::Interrupted));
        }
        match self.bytes.split_first() {
            Some((first, rest)) if !buf.is_empty() => {
                buf[0] = *first;
                self.bytes = rest;
                Ok(1)
            }
            _ => Ok(0),
        }
    }
}

/// A reader whose reads are all interrupted.
#[derive(Drop)]
pub(crate) struct Never;

impl Read for Never {
    fn read(&mut self, _buf: &mut [u8]) -> io::Result<usize> {
        Err(io::Error::from(ErrorKind::Interrupted))
    }
}

/// What a writer does after it has taken its bytes.
#[derive(Clone, Copy)]
pub(crate) enum Then {
    Fails,
    TakesNone,
    IsInterrupted,
    FailsToFlush,
}

/// A writer that takes some bytes, one per write, and then no more.
#[derive(Drop)]
pub(crate) struct Short {
    pub(crate) taken: Vec<u8>,
    room: usize,
    then: Then,
}

impl Short {
    pub(crate) fn new(alloc: Global, room: usize, then: Then) -> Short {
        let taken = Vec::new(alloc);
        Short { taken, room, then }
    }
}

impl Write for Short {
    fn write(&mut self, buf: &[u8]) -> io::Result<usize> {
        if self.room == 0 {
            return match self.then {
                Then::TakesNone => Ok(0),
                Then::IsInterrupted => Err(io::Error::from(ErrorKind::Interrupted)),
                _ => Err(io::Error::from(ErrorKind::Other)),
            };
        }
        match buf.first() {
            Some(byte) => {
                self.taken.push(*byte)?;
                self.room -= 1;
                Ok(1)
            }
            None => Ok(0),
        }
    }

    fn flush(&mut self) -> io::Result<()> {
        match self.then {
            Then::FailsToFlush => Err(io::Error::from(ErrorKind::Other)),
            _ => Ok(()),
        }
    }
}
