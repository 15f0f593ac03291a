//! URIs of files (RFC 8089).
ghost use Rattle.std.specs.Prelude.{◌≡◌, ◌++◌, IfOk, codes, string_bytes, true};
ghost use Rattle.percent_encoding.specs.AsciiSet.{contains};
ghost use Rattle.percent_encoding.specs.Percent.{percent_decode, percent_sign};

use percent_encoding::{AsciiSet, NON_ALPHANUMERIC, percent_encode};
use std::alloc::{AllocError, Global};

/// What a URI of a file begins with.
const SCHEME: &str = "file://";

/// Returns the bytes that are escaped in the path of a URI (RFC 3986, section 3.3).
fn escaped() -> AsciiSet
    ensures { contains result percent_sign ≡ true }
{
    NON_ALPHANUMERIC
        .remove(b'/')
        .remove(b'-')
        .remove(b'_')
        .remove(b'.')
        .remove(b'~')
}

/// Returns the URI of a file.
pub fn uri_of(alloc: Global, path: &str) -> Result<String, AllocError>
    ensures { IfOk result (λ uri. percent_decode (string_bytes uri) ≡ codes "file://" ++ path.now) }
{
    let mut uri = String::from_str(alloc, SCHEME)?;
    percent_encode(path.as_bytes(), escaped()).append_to(&mut uri)?;
    Ok(uri)
}
