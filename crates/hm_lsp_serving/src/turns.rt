//! A turn of the server: the frames that are whole, and the diagnostics after them.
ghost use Rattle.std.specs.Prelude.{◌≡◌, ◌++◌, ℕ, List, IfOk, OnOk, map};
ghost use Rattle.serde_json.specs.Data.{Data};
ghost use Rattle.hm_lsp_frames.specs.Pending.{IsPending, item_of};
ghost use Rattle.hm_lsp_server.specs.Servers.{IsOrderly};
ghost use Rattle.hm_lsp_session.specs.Cancelled.{cancels_of};
ghost use Rattle.hm_lsp_serving.specs.Taking.{IsDone, IsFrameDone, status_in};
ghost use Rattle.hm_lsp_serving.specs.Turns.{AreWritten, IsToldAfter};
ghost use Rattle.hm_lsp_serving.specs.Steps.{AreTakenUpTo, IsPublishedNow, IsTurnOf};

use crate::disk::Disk;
use crate::taking::{Serving, cancelled_in, read_files, take_frame};
use hm_lsp_frames::{Frame, Frames, take_all};
use hm_lsp_output::{SendFault, send};
use hm_lsp_server::Taken;
use hm_lsp_session::Cancelled;
use std::io::Write;
use std::slice;
use std::sync::Wait;
use std::thread::Threads;

/// Does what follows from a frame. Returns the exit status if the server ends.
fn act<T: Threads, D: Disk + Drop, W: Write>(
    rt: &T,
    serving: &mut Serving<D>,
    writer: &mut W,
    taken: Taken,
) -> Result<Option<u8>, SendFault>
    requires { IsOrderly serving.old.server }
    ensures orderly { OnOk result (IsOrderly serving.new.server) }
    ensures status { IfOk result (λ status. status ≡ status_in taken) }
    ensures done { OnOk result ((sent : List Data) × (IsDone taken serving.old.server serving.new.server sent × AreWritten (W.contents writer.old) (W.contents writer.new) sent)) }
{
    match taken {
        Taken::Nothing => Ok(None),
        Taken::Reply(value) | Taken::Request(value) => {
            send(serving.alloc, writer, slice::from_ref(&value))?;
            Ok(None)
        }
        Taken::Files(uris) => {
            read_files(rt, serving, &uris)?;
            Ok(None)
        }
        Taken::Ended(status) => Ok(Some(status)),
    }
}

/// Takes a frame, and does what follows. Returns the exit status if the server ends.
fn step<T: Threads + Wait + Sync, D: Disk + Drop, W: Write>(
    rt: &T,
    serving: &mut Serving<D>,
    writer: &mut W,
    cancelled: &Cancelled,
    frame: &Frame,
) -> Result<Option<u8>, SendFault>
    requires { IsOrderly serving.old.server }
    ensures orderly { OnOk result (IsOrderly serving.new.server) }
    ensures done { IfOk result (λ status. (sent : List Data)
        × (IsFrameDone (cancels_of cancelled.now) (item_of frame.now) serving.old.server serving.new.server sent status × AreWritten (W.contents writer.old) (W.contents writer.new) sent)) }
{
    let taken = take_frame(rt, serving, cancelled, frame)?;
    Ok(act(rt, serving, writer, taken)?)
}

/// Takes frames in order. Returns the exit status if the server ends at one.
fn take_frames<T: Threads + Wait + Sync, D: Disk + Drop, W: Write>(
    rt: &T,
    serving: &mut Serving<D>,
    writer: &mut W,
    cancelled: &Cancelled,
    frames: &[Frame],
) -> Result<Option<u8>, SendFault>
    requires { IsOrderly serving.old.server }
    ensures orderly { OnOk result (IsOrderly serving.new.server) }
    ensures taken { IfOk result (λ status. (sent : List Data)
        × (AreTakenUpTo (cancels_of cancelled.now) (map item_of frames.now) serving.old.server serving.new.server sent status × AreWritten (W.contents writer.old) (W.contents writer.new) sent)) }
{
    'frames: for frame in frames {
        match step(rt, serving, writer, cancelled, frame)? {
            Some(status) => return Ok(Some(status)),
            None => {}
        }
    }
    Ok(None)
}

/// Sends the diagnostics, if the texts have changed.
fn publish<T: Threads + Wait + Sync, D: Disk + Drop, W: Write>(
    rt: &T,
    serving: &mut Serving<D>,
    writer: &mut W,
) -> Result<(), SendFault>
    requires { IsOrderly serving.old.server }
    ensures orderly { OnOk result (IsOrderly serving.new.server) }
    ensures published { OnOk result ((sent : List Data) × (IsPublishedNow serving.old.server serving.new.server sent × AreWritten (W.contents writer.old) (W.contents writer.new) sent)) }
{
    let mut sent = Vec::new(serving.alloc);
    serving.server.publish(rt, &mut sent)?;
    Ok(send(serving.alloc, writer, &sent)?)
}

/// Sends the diagnostics, if the texts have changed and no byte of a frame is left.
fn finish<T: Threads + Wait + Sync, D: Disk + Drop, W: Write>(
    rt: &T,
    serving: &mut Serving<D>,
    writer: &mut W,
    frames: &Frames,
) -> Result<(), SendFault>
    requires { IsOrderly serving.old.server }
    ensures orderly { OnOk result (IsOrderly serving.new.server) }
    ensures told { OnOk result ((sent : List Data) × (((rest : List ℕ) → IsPending frames.now rest → IsToldAfter rest serving.old.server serving.new.server sent)
        × AreWritten (W.contents writer.old) (W.contents writer.new) sent)) }
{
    if !frames.is_empty() {
        return Ok(());
    }
    Ok(publish(rt, serving, writer)?)
}

/// Takes all frames that are whole after a piece was read, and sends the diagnostics if no byte of a frame is left. Returns the exit status if the server
/// ends.
pub(crate) fn take_turn<T: Threads + Wait + Sync, D: Disk + Drop, W: Write>(
    rt: &T,
    serving: &mut Serving<D>,
    writer: &mut W,
    frames: &mut Frames,
    piece: &[u8],
) -> Result<Option<u8>, SendFault>
    requires { IsOrderly serving.old.server }
    ensures orderly { OnOk result (IsOrderly serving.new.server) }
    ensures turn { IfOk result (λ status. (waits : List ℕ) → IsPending frames.old waits → (rest : List ℕ) × ((sent : List Data)
        × (IsPending frames.new rest × (IsTurnOf (waits ++ piece.now) serving.old.server serving.new.server rest sent status × AreWritten (W.contents writer.old) (W.contents writer.new) sent)))) }
{
    let alloc = serving.alloc;
    frames.add(piece)?;
    let mut whole = Vec::new(alloc);
    take_all(frames, &mut whole)?;
    let whole = whole.as_slice();
    let cancelled = cancelled_in(alloc, whole)?;
    match take_frames(rt, serving, writer, &cancelled, whole)? {
        Some(status) => return Ok(Some(status)),
        None => {}
    }
    finish(rt, serving, writer, frames)?;
    Ok(None)
}
