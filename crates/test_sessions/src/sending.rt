//! Messages that are written to a client.
use hm_lsp_output::{SendFault, send};
use serde_json::Value;
use std::alloc::{AllocError, Global};
use std::io;
use std::io::{ErrorKind, Write};

// The Language Server Protocol 3.17, "Base Protocol".
/// The frames of `null` and of `true`.
const FRAMES: &[u8] = b"Content-Length: 4\r\n\r\nnullContent-Length: 4\r\n\r\ntrue";

/// A writer that takes one byte per write, and fails after some bytes or at a flush.
#[derive(Drop)]
struct Short {
    taken: Vec<u8>,
    room: usize,
    can_flush: bool,
}

impl Write for Short {
    fn write(&mut self, buf: &[u8]) -> io::Result<usize> {
        if self.room == 0 {
            return Err(io::Error::from(ErrorKind::Other));
        }
        match buf.first() {
            Some(byte) => {
                self.taken.push(*byte)?;
                self.room -= 1;
                Ok(1)
            }
            None => Ok(0),
        }
    }

    fn flush(&mut self) -> io::Result<()> {
        if self.can_flush {
            Ok(())
        } else {
            Err(io::Error::from(ErrorKind::Other))
        }
    }
}

/// Returns whether a writer with this room takes the beginning of the frames, and whether sending succeeds then.
fn is_as_wanted(
    alloc: Global,
    room: usize,
    can_flush: bool,
    succeeds: bool,
) -> Result<bool, AllocError> {
    let taken = Vec::new(alloc);
    let mut writer = Short {
        taken,
        room,
        can_flush,
    };
    let messages = [Value::Null, Value::Bool(true)];
    let is_sent = match send(alloc, &mut writer, &messages) {
        Ok(()) => true,
        Err(SendFault::Write) => false,
        Err(SendFault::Memory) => return Err(AllocError),
    };
    let size = room.min(FRAMES.len());
    Ok(is_sent == succeeds && writer.taken.as_slice() == &FRAMES[..size])
}

/// Returns whether writers with each room are as wanted.
fn all_as_wanted(alloc: Global) -> Result<bool, AllocError> {
    for room in 0..FRAMES.len() {
        if !is_as_wanted(alloc, room, true, false)? {
            return Ok(false);
        }
    }
    let flushes = is_as_wanted(alloc, FRAMES.len(), true, true)?;
    let fails = is_as_wanted(alloc, FRAMES.len(), false, false)?;
    Ok(flushes && fails)
}

#[test]
fn sent_messages(rt: HostRuntime) {
    match all_as_wanted(rt.alloc()) {
        Ok(good) => assert!(rt; good),
        Err(AllocError) => {}
    }
}
