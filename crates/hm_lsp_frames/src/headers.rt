//! The length that a header gives.
ghost use Rattle.std.specs.Prelude.{◌≡◌, ◌<◌, length, option_copied};
ghost use Rattle.hm_lsp_frames.specs.Headers.{first_line, is_length, length_of, number_of, value_at, value_of};

use memchr::memchr;

/// The name of the length and its colon.
const NAME: &[u8] = b"content-length:";

/// Returns whether the bytes begin with the name of the length, in any case of letters.
fn is_length(bytes: &[u8]) -> bool
    ensures { result ≡ is_length bytes.now }
{
    bytes[..NAME.len().min(bytes.len())].eq_ignore_ascii_case(NAME)
}

/// Returns the bytes up to the end of their first line.
fn first_line(bytes: &[u8]) -> &[u8]
    ensures { result.now ≡ first_line bytes.now }
{
    match memchr(b'\n', bytes) {
        Some(end) => &bytes[..end],
        None => bytes,
    }
}

/// Returns the value of the field that the bytes begin with.
fn value_of(bytes: &[u8]) -> &[u8]
    ensures { result.now ≡ value_of bytes.now }
{
    first_line(&bytes[NAME.len().min(bytes.len())..]).trim_ascii()
}

/// Returns the number that the digits write, if there are only digits, and it is below 2^64.
fn number_of(value: &[u8]) -> Option<u64>
    ensures { result ≡ number_of value.now }
{
    if value.is_empty() {
        return None;
    }
    let mut number = 0u64;
    for byte in value {
        if !byte.is_ascii_digit() {
            return None;
        }
        let Some(tens) = number.checked_mul(10) else {
            return None;
        };
        let Some(sum) = tens.checked_add((*byte - b'0') as u64) else {
            return None;
        };
        number = sum;
    }
    Some(number)
}

/// Returns the value of the field `Content-Length` that begins at a place of the header, if one does.
fn value_at(header: &[u8], at: usize) -> Option<&[u8]>
    requires { at < length header.now }
    ensures { option_copied result ≡ value_at header.now at }
{
    if at > 0 && header[at - 1] != b'\n' {
        return None;
    }
    let rest = &header[at..];
    if !is_length(rest) {
        return None;
    }
    Some(value_of(rest))
}

/// Returns the length that a header gives, if just one of its lines gives one.
pub(crate) fn length_of(header: &[u8]) -> Option<u64>
    ensures { result ≡ length_of header.now }
{
    let mut found = None;
    'places: for at in 0..header.len() {
        match value_at(header, at) {
            None => {}
            Some(value) => {
                if found.is_some() {
                    return None;
                }
                found = Some(value);
            }
        }
    }
    match found {
        Some(value) => number_of(value),
        None => None,
    }
}
