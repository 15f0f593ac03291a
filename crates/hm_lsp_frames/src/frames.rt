//! The frames of a stream that is read in pieces.
ghost use Rattle.std.specs.Prelude.{◌≡◌, ℕ, List, [], None, ◌<◌, ◌≤◌, ◌↔◌, ◌++◌, IfOk, IfSome, IsTrue, OnErr, OnOk, flat_map, length, map};
ghost use Rattle.hm_lsp_frames.specs.Frames.{Reads};
ghost use Rattle.hm_lsp_frames.specs.Pending.{held_by, item_of, IsPending, IsTaken, TakesAll, weight};

use crate::looking::{Start, look};
use std::alloc::{AllocError, Global};

/// A frame of a stream.
#[derive(Drop)]
pub enum Frame {
    /// The body of a message.
    Body(Vec<u8>),
    /// A body of more than 33,554,432 bytes. It was passed over.
    TooLong,
    /// A header without a length, with several, or with more than 4,096 bytes. It was passed over.
    Malformed,
}

// Why: docs/DECISIONS.md, "Malformed headers", "Headers without an end", "Long bodies".
/// The bytes of a stream that were read and aren't taken as frames yet.
#[derive(Drop)]
pub struct Frames {
    alloc: Global,
    bytes: Vec<u8>,
    start: usize,
    passing: Option<u64>,
}

impl Frames {
    /// Returns the state before any byte is read.
    pub fn new(alloc: Global) -> Frames
        ensures { IsPending result [] }
    {
        Frames {
            alloc,
            bytes: Vec::new(alloc),
            start: 0,
            passing: None,
        }
    }

    /// Returns the bytes that are held.
    fn held(&self) -> &[u8]
        ensures value { result.now ≡ held_by self.now }
        ensures within { 0 < length result.now → self.now.start ≤ length self.now.bytes.items }
    {
        match self.bytes.as_slice().get(self.start..) {
            Some(held) => held,
            None => &[],
        }
    }

    /// Returns whether no byte of a frame was read that isn't taken yet.
    pub fn is_empty(&self) -> bool
        ensures { IsTrue result ↔ IsPending self.now [] }
    {
        match self.passing {
            None => self.held().is_empty(),
            Some(_) => false,
        }
    }

    /// Removes the bytes that were taken.
    fn compact(&mut self) -> Result<(), AllocError>
        ensures held { held_by self.new ≡ held_by self.old }
        ensures passing { self.new.passing ≡ self.old.passing }
        ensures start { OnOk result (self.new.start ≡ 0) }
    {
        if self.start > 0 {
            let bytes = Vec::from_slice(self.alloc, self.held())?;
            self.bytes = bytes;
            self.start = 0;
        }
        Ok(())
    }

    /// Adds bytes that were read.
    ///
    /// # Errors
    ///
    /// If memory runs out. The bytes aren't added then.
    pub fn add(&mut self, piece: &[u8]) -> Result<(), AllocError>
        ensures added { OnOk result ((stream : List ℕ) → IsPending self.old stream → IsPending self.new (stream ++ piece.now)) }
        ensures err { OnErr result ((stream : List ℕ) → IsPending self.old stream → IsPending self.new stream) }
    {
        self.compact()?;
        let Some(left) = self.passing else {
            return self.bytes.extend_from_slice(piece);
        };
        let part = left.min(piece.len() as u64);
        self.bytes.extend_from_slice(&piece[part as usize..])?;
        self.passing = Some(left - part);
        Ok(())
    }

    /// Takes the next frame from the bytes that are held, which aren't those of a body that is too long.
    fn take_held(&mut self) -> Result<Option<Frame>, AllocError>
        requires { self.old.passing ≡ None }
        ensures taken { IfOk result (λ frame. IsTaken frame self.new (held_by self.old)) }
        ensures fewer { IfOk result (λ frame. IfSome frame (λ _. weight self.new < weight self.old)) }
        ensures err { OnErr result (IsPending self.new (held_by self.old)) }
    {
        let held = self.held();
        match look(held) {
            Start::Nothing => Ok(None),
            Start::Malformed(count) => {
                self.start += count;
                Ok(Some(Frame::Malformed))
            }
            Start::Body(start, end) => {
                let body = Vec::from_slice(self.alloc, &held[start..end])?;
                self.start += end;
                Ok(Some(Frame::Body(body)))
            }
            Start::TooLong(count, left) => {
                self.start += count;
                if left > 0 {
                    self.passing = Some(left);
                    return Ok(None);
                }
                Ok(Some(Frame::TooLong))
            }
        }
    }

    /// Takes the next frame, or returns `None` if more bytes are needed.
    ///
    /// # Errors
    ///
    /// If memory runs out. No frame is taken then.
    pub fn next(&mut self) -> Result<Option<Frame>, AllocError>
        ensures taken { IfOk result (λ frame. (stream : List ℕ) → IsPending self.old stream → IsTaken frame self.new stream) }
        ensures fewer { IfOk result (λ frame. IfSome frame (λ _. weight self.new < weight self.old)) }
        ensures err { OnErr result ((stream : List ℕ) → IsPending self.old stream → IsPending self.new stream) }
    {
        match self.passing {
            None => Ok(self.take_held()?),
            Some(left) => {
                if left > 0 {
                    return Ok(None);
                }
                self.passing = None;
                Ok(Some(Frame::TooLong))
            }
        }
    }
}

/// Takes each frame that is whole, and adds it to a list, in order.
///
/// # Errors
///
/// If memory runs out. The frame that comes next may be lost then.
pub fn take_all(frames: &mut Frames, taken: &mut Vec<Frame>) -> Result<(), AllocError>
    ensures { OnOk result ((stream : List ℕ) → IsPending frames.old stream → TakesAll frames.new stream taken.old.items taken.new.items) }
{
    while let Some(frame) = frames.next()? {
        taken.push(frame)?;
    }
    Ok(())
}

/// Returns the frames of a stream that is read in these pieces.
///
/// They don't depend on how the stream is cut.
///
/// # Errors
///
/// If memory runs out.
pub fn frames_in(alloc: Global, pieces: &[Vec<u8>]) -> Result<Vec<Frame>, AllocError>
    ensures { IfOk result (λ frames. (rest : List ℕ) × Reads (flat_map (λ p. p.items) pieces.now) (map item_of frames.items) rest) }
{
    let mut frames = Frames::new(alloc);
    let mut taken = Vec::new(alloc);
    for piece in pieces {
        frames.add(piece.as_slice())?;
        take_all(&mut frames, &mut taken)?;
    }
    Ok(taken)
}
