//! The frames of a client, and what the server does with each.
ghost use Rattle.std.specs.Prelude.{◌≡◌, IfOk, OnOk, map, string_bytes};
ghost use Rattle.hm_lsp_frames.specs.Pending.{item_of};
ghost use Rattle.hm_lsp_server.specs.Servers.{IsOrderly};
ghost use Rattle.hm_lsp_session.specs.Cancelled.{cancels_of};
ghost use Rattle.hm_lsp_serving.specs.Taking.{AreCancels, AreNoted, AreRead, IsBodyTaken, IsFrameTaken, IsItemNoted, IsOpenedBy, IsRead};

use crate::disk::{Disk, OnDisk};
use hm_lsp_frames::Frame;
use hm_lsp_server::{Server, Taken};
use hm_lsp_session::{Cancelled, Refusal, opened_by, refusal};
use serde_json::Value;
use std::alloc::{AllocError, Global};
use std::sync::Wait;
use std::thread::Threads;

/// A server, and the disk that has its sources.
#[derive(Drop)]
pub struct Serving<D> {
    pub alloc: Global,
    pub server: Server,
    pub disk: D,
}

/// Notes a frame, if it cancels a request.
fn note(cancelled: &mut Cancelled, frame: &Frame) -> Result<(), AllocError>
    ensures { OnOk result (IsItemNoted (item_of frame.now) (cancels_of cancelled.old) (cancels_of cancelled.new)) }
{
    match frame {
        Frame::Body(body) => cancelled.note(body),
        Frame::TooLong | Frame::Malformed => Ok(()),
    }
}

/// Returns the messages of frames that cancel requests, in order.
fn noted_in(alloc: Global, frames: &[Frame]) -> Result<Cancelled, AllocError>
    ensures { IfOk result (λ cancelled. AreNoted (map item_of frames.now) (cancels_of cancelled)) }
{
    let mut cancelled = Cancelled::new(alloc);
    'frames: for frame in frames {
        note(&mut cancelled, frame)?;
    }
    Ok(cancelled)
}

// Why: docs/DECISIONS.md, "Cancelled requests".
/// Returns the messages of frames that wait together and cancel requests. The first frame cancels none that waits.
pub(crate) fn cancelled_in(alloc: Global, frames: &[Frame]) -> Result<Cancelled, AllocError>
    ensures { IfOk result (λ cancelled. AreCancels (map item_of frames.now) (cancels_of cancelled)) }
{
    let Some((_, later)) = frames.split_first() else {
        return Ok(Cancelled::new(alloc));
    };
    Ok(noted_in(alloc, later)?)
}

// Why: docs/DECISIONS.md, "Folders of the client".
/// Begins anew with the files of the folders that a body opens, if it is the first request that opens some.
fn open<T: Threads, D: Disk + Drop>(
    rt: &T,
    serving: &mut Serving<D>,
    body: &[u8],
) -> Result<(), AllocError>
    requires { IsOrderly serving.old.server }
    ensures orderly { OnOk result (IsOrderly serving.new.server) }
    ensures opened { OnOk result (IsOpenedBy body.now serving.old.server serving.new.server) }
{
    if !serving.server.is_new() {
        return Ok(());
    }
    let Some(opened) = opened_by(serving.alloc, body)? else {
        return Ok(());
    };
    let Some(files) = serving.disk.open(&opened)? else {
        return Ok(());
    };
    serving.server = Server::new(rt, serving.alloc, files)?;
    Ok(())
}

/// Takes the body of a frame, and returns what follows. A request that is cancelled has a reply that says so.
fn take_body<T: Threads + Wait + Sync, D: Disk + Drop>(
    rt: &T,
    serving: &mut Serving<D>,
    cancelled: &Cancelled,
    body: &[u8],
) -> Result<Taken, AllocError>
    requires { IsOrderly serving.old.server }
    ensures orderly { OnOk result (IsOrderly serving.new.server) }
    ensures taken { IfOk result (IsBodyTaken (cancels_of cancelled.now) body.now serving.old.server serving.new.server) }
{
    match cancelled.reply(body)? {
        Some(reply) => return Ok(Taken::Reply(reply)),
        None => {}
    }
    open(rt, serving, body)?;
    Ok(serving.server.take(rt, body)?)
}

/// Takes a frame, and returns what follows.
pub(crate) fn take_frame<T: Threads + Wait + Sync, D: Disk + Drop>(
    rt: &T,
    serving: &mut Serving<D>,
    cancelled: &Cancelled,
    frame: &Frame,
) -> Result<Taken, AllocError>
    requires { IsOrderly serving.old.server }
    ensures orderly { OnOk result (IsOrderly serving.new.server) }
    ensures taken { IfOk result (IsFrameTaken (cancels_of cancelled.now) (item_of frame.now) serving.old.server serving.new.server) }
{
    let (why, text) = match frame {
        Frame::Body(body) => return take_body(rt, serving, cancelled, body),
        Frame::TooLong => (Refusal::InvalidRequest, "this message is too long"),
        Frame::Malformed => (Refusal::ParseError, "this is no header"),
    };
    Ok(Taken::Reply(refusal(serving.alloc, &Value::Null, why, text)?))
}

/// Reads the file with this URI, if it is a source of the folders.
fn read_file<T: Threads, D: Disk + Drop>(
    rt: &T,
    serving: &mut Serving<D>,
    uri: &str,
) -> Result<(), AllocError>
    requires { IsOrderly serving.old.server }
    ensures orderly { OnOk result (IsOrderly serving.new.server) }
    ensures read { OnOk result (IsRead uri.now serving.old.server serving.new.server) }
{
    let text = match serving.disk.read(uri)? {
        OnDisk::NoSource => return Ok(()),
        OnDisk::Missing => None,
        OnDisk::Text(text) => Some(text),
    };
    Ok(serving.server.read_file(rt, uri, text)?)
}

/// Reads the files with these URIs that are sources of the folders, in order.
pub(crate) fn read_files<T: Threads, D: Disk + Drop>(
    rt: &T,
    serving: &mut Serving<D>,
    uris: &[String],
) -> Result<(), AllocError>
    requires { IsOrderly serving.old.server }
    ensures orderly { OnOk result (IsOrderly serving.new.server) }
    ensures read { OnOk result (AreRead serving.old.server (map string_bytes uris.now) serving.new.server) }
{
    'files: for uri in uris {
        read_file(rt, serving, uri.as_str())?;
    }
    Ok(())
}
