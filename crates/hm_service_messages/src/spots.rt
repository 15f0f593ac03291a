//! Where a name is bound, read from the text for a place.
ghost use Rattle.std.specs.Prelude.{◌≡◌, ◌++◌, IfOk, IfSome, codes, string_bytes};
ghost use Rattle.std.specs.Fmt.{decimal};
ghost use Rattle.hm_service_messages.specs.Spots.{HasBoundLine};

use std::alloc::{AllocError, Global};

/// The place of a source where a name is bound.
#[derive(Clone, Copy, Debug, PartialEq, Eq)]
pub struct Bound {
    /// The number of the source in the held set.
    pub source: usize,
    /// The line, from 1.
    pub line: usize,
    /// The column in characters, from 1.
    pub column: usize,
}

/// The words before a place in the text.
const BOUND_AT: &str = "  bound at ";

/// A text around a line that names a place.
#[derive(Clone, Copy)]
struct BoundText<'a> {
    before: &'a str,
    bound: Bound,
    after: &'a str,
}

/// Returns the place that a text SOURCE:LINE:COLUMN names.
fn spot_in(text: &str) -> Option<Bound> {
    let (source, rest) = text.split_once(":")?;
    let (line, column) = rest.split_once(":")?;
    Some(Bound {
        source: source.parse::<usize>().ok()?,
        line: line.parse::<usize>().ok()?,
        column: column.parse::<usize>().ok()?,
    })
}

/// Returns the first place in a text at which it says that a name is bound. Nothing is promised of it: the text is written again and compared.
fn around(text: &str) -> Option<BoundText<'_>> {
    let (before, rest) = text.split_once(BOUND_AT)?;
    let (spot, after) = rest.split_once("\n")?;
    let bound = spot_in(spot)?;
    Some(BoundText {
        before,
        bound,
        after,
    })
}

/// Returns a text around the line for a place.
fn written(alloc: Global, around: BoundText<'_>) -> Result<String, AllocError>
    ensures { IfOk result (λ text. string_bytes text ≡ around.entry.before.now ++ (codes "  bound at " ++ (decimal around.entry.bound.source ++ (codes ":"
        ++ (decimal around.entry.bound.line ++ (codes ":" ++ (decimal around.entry.bound.column ++ (codes "\n" ++ around.entry.after.now)))))))) }
{
    let BoundText {
        before,
        bound,
        after,
    } = around;
    let Bound {
        source,
        line,
        column,
    } = bound;
    format!(in alloc; "{before}  bound at {source}:{line}:{column}\n{after}")
}

/// Returns the first place at which a text says that a name is bound.
pub fn bound_in(alloc: Global, text: &str) -> Result<Option<Bound>, AllocError>
    ensures { IfOk result (λ bound. IfSome bound (λ b. HasBoundLine b text.now)) }
{
    let Some(around) = around(text) else {
        return Ok(None);
    };
    let again = written(alloc, around)?;
    if again.as_str() != text {
        return Ok(None);
    }
    Ok(Some(around.bound))
}
