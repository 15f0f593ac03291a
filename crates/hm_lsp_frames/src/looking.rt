//! What the bytes that were read begin with.
ghost use Rattle.std.specs.Prelude.{◌≡◌, ◌+◌, ◌<◌, ◌≤◌, None, IfSome, length};
ghost use Rattle.hm_lsp_frames.specs.Frames.{end_of, is_inside, last_length, passed_header, passed_long};
ghost use Rattle.hm_lsp_frames.specs.Looking.{IsLook, IsLookAfter};

use crate::headers::length_of;
use memchr::memmem;

/// The number of bytes in the longest header.
const MOST_HEADER: usize = 4096;

/// The number of bytes in the longest header with its empty line.
const MOST_READ: usize = 4100;

/// The longest body that is kept. A longer one is passed over.
const MOST_BODY: u64 = 33_554_432;

/// The name of the length in a header, as clients write it.
const LENGTH_NAME: &[u8] = b"Content-Length:";

/// The end of a header.
const EMPTY_LINE: &[u8] = b"\r\n\r\n";

/// What the bytes that were read begin with.
#[derive(Clone, Copy)]
pub(crate) enum Start {
    /// Less than a frame.
    Nothing,
    /// A malformed header. So many bytes are passed over.
    Malformed(usize),
    /// A frame with a body between these bytes.
    Body(usize, usize),
    /// A body that is too long. So many bytes of the frame are there, and so many are missing.
    TooLong(usize, u64),
}

/// Returns the last place of the name of the length.
fn last_length(header: &[u8]) -> Option<usize>
    ensures value { result ≡ last_length header.now }
    ensures within { IfSome result (λ k. k + 15 ≤ length header.now) }
{
    memmem::rfind(header, LENGTH_NAME)
}

/// Returns whether a place of a header is inside one of its lines.
fn is_inside(header: &[u8], at: usize) -> bool
    requires { at ≤ length header.now }
    ensures { result ≡ is_inside header.now at }
{
    at > 0 && header[at - 1] != b'\n'
}

/// Returns the number of bytes that are passed over of a malformed header.
fn passed_header(header: &[u8]) -> usize
    requires { length header.now ≤ 4096 }
    ensures count { result ≡ passed_header header.now (last_length header.now) }
    ensures some { 0 < result }
    ensures most { result ≤ length header.now + 4 }
{
    match last_length(header) {
        Some(at) => {
            if is_inside(header, at) {
                return at;
            }
            header.len() + EMPTY_LINE.len()
        }
        None => header.len() + EMPTY_LINE.len(),
    }
}

/// Returns the number of bytes that are passed over of a header that is too long.
fn passed_long(header: &[u8]) -> usize
    requires { length header.now ≤ 4096 }
    ensures count { result ≡ passed_long (last_length header.now) }
    ensures some { 0 < result }
    ensures most { result ≤ 4096 }
{
    match last_length(header) {
        Some(at) => {
            if at > 0 {
                return at;
            }
            MOST_HEADER + 1 - LENGTH_NAME.len()
        }
        None => MOST_HEADER + 1 - LENGTH_NAME.len(),
    }
}

/// Returns what the bytes begin with, of which a header with this length and its empty line are the first.
fn look_after(held: &[u8], start: usize, size: u64) -> Start
    requires { start ≤ length held.now }
    ensures { IsLookAfter held.now start size result }
{
    let rest = held.len() - start;
    if size > MOST_BODY {
        let part = size.min(rest as u64);
        return Start::TooLong(start + part as usize, size - part);
    }
    if size > rest as u64 {
        return Start::Nothing;
    }
    Start::Body(start, start + size as usize)
}

/// Returns the place of the first empty line that may end a header.
fn end_of(held: &[u8]) -> Option<usize>
    ensures value { result ≡ end_of held.now }
    ensures header { IfSome result (λ k. k ≤ 4096) }
    ensures within { IfSome result (λ k. k + 4 ≤ length held.now) }
{
    memmem::find(&held[..MOST_READ.min(held.len())], EMPTY_LINE)
}

/// Returns what the bytes begin with, of which none of the first is the end of a header.
fn look_long(held: &[u8]) -> Start
    requires { end_of held.now ≡ None }
    ensures { IsLook held.now result }
{
    if held.len() < MOST_READ {
        return Start::Nothing;
    }
    let (header, _rest) = held.split_at(MOST_HEADER);
    Start::Malformed(passed_long(header))
}

/// Returns what the bytes begin with.
pub(crate) fn look(held: &[u8]) -> Start
    ensures { IsLook held.now result }
{
    match end_of(held) {
        None => look_long(held),
        Some(end) => {
            let header = &held[..end];
            match length_of(header) {
                None => Start::Malformed(passed_header(header)),
                Some(size) => look_after(held, end + EMPTY_LINE.len(), size),
            }
        }
    }
}
