//! Cuts long lines to the part around a place.
ghost use Rattle.std.specs.Prelude.{◌≡◌, ◌<◌, ◌≤◌, ◌+◌, length, drop, take};
ghost use Rattle.hm_messages_excerpts.specs.Excerpts.{IsShownRound, continues, most_shown};

use crate::excerpt::Excerpt;

/// The number of bytes that are shown on each side of a place.
const MOST_SHOWN: usize = 80;

/// The number of bytes after the first in a character of UTF-8, at most.
const LONGEST_REST: usize = 3;

/// Returns whether a byte is inside a character of UTF-8, after its first byte.
pub fn continues(byte: u8) -> bool
    ensures { result ≡ continues byte }
{
    matches!(byte, 0x80..=0xBF)
}

/// Returns where the shown part before a place begins: at a whole character.
fn first_shown(front: &[u8]) -> usize
    ensures within { result ≤ length front.now }
    ensures short { length front.now ≤ result + most_shown }
    ensures long { 0 < result → result + most_shown ≤ length front.now + 3 }
{
    if front.len() <= MOST_SHOWN {
        return 0;
    }
    let start = front.len() - MOST_SHOWN;
    for skipped in 0..LONGEST_REST {
        if !continues(front[start + skipped]) {
            return start + skipped;
        }
    }
    start + LONGEST_REST
}

/// Returns where the shown part after a place ends: at a whole character.
fn shown_end(back: &[u8]) -> usize
    ensures within { result ≤ length back.now }
    ensures short { result ≤ most_shown }
    ensures long { result < length back.now → most_shown ≤ result + 3 }
{
    if back.len() <= MOST_SHOWN {
        return back.len();
    }
    for skipped in 0..LONGEST_REST {
        if !continues(back[MOST_SHOWN - skipped]) {
            return MOST_SHOWN - skipped;
        }
    }
    MOST_SHOWN - LONGEST_REST
}

/// Returns the shown part of a line with these bytes before and after a place.
pub(crate) fn shown_round<'a>(front: &'a [u8], back: &'a [u8]) -> Excerpt<'a>
    ensures { IsShownRound front.now back.now result }
{
    let start = first_shown(front);
    let end = shown_end(back);
    Excerpt {
        left: &front[start..],
        right: &back[..end],
        is_cut_left: start > 0,
        is_cut_right: end < back.len(),
    }
}
