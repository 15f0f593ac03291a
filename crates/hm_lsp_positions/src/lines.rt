//! Lines of a text.
ghost use Rattle.std.specs.Prelude.{◌≡◌, ◌<◌, ◌≤◌, IfSome, length};
ghost use Rattle.hm_lsp_positions.specs.Lines.{line_length, line_start, whole_length};

use memchr::memchr2;

/// Returns the number of bytes in the first line of a text.
pub(crate) fn line_length(text: &[u8]) -> usize
    ensures value { result ≡ line_length text.now }
    ensures within { result ≤ length text.now }
{
    match memchr2(b'\n', b'\r', text) {
        Some(end) => end,
        None => text.len(),
    }
}

/// Returns the number of bytes in the first line of a text and its end.
fn whole_length(text: &[u8]) -> usize
    requires { line_length text.now < length text.now }
    ensures value { result ≡ whole_length text.now }
    ensures within { result ≤ length text.now }
    ensures some { 0 < result }
{
    let end = line_length(text);
    if text[end] != b'\r' {
        return end + 1;
    }
    if text.len() - end < 2 {
        return end + 1;
    }
    if text[end + 1] != b'\n' {
        return end + 1;
    }
    end + 2
}

/// Returns the number of bytes before the next line, if there is one.
pub(crate) fn next_line(text: &[u8]) -> Option<usize>
    ensures value { result ≡ line_start 1 text.now }
    ensures within { IfSome result (λ k. k ≤ length text.now) }
    ensures some { IfSome result (λ k. 0 < k) }
{
    if line_length(text) >= text.len() {
        return None;
    }
    Some(whole_length(text))
}

/// Returns the number of bytes before the line with this number, counted from 0, if the text has so many lines.
pub(crate) fn line_start(text: &[u8], line: usize) -> Option<usize>
    ensures value { result ≡ line_start line text.now }
    ensures within { IfSome result (λ k. k ≤ length text.now) }
{
    let mut start = 0;
    'lines: for _number in 0..line {
        match next_line(&text[start..]) {
            Some(next) => start += next,
            None => return None,
        }
    }
    Some(start)
}
