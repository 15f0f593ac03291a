//! How many arguments a name has, and how many it has after a change.
ghost use Rattle.std.specs.Prelude.{◌≡◌, ◌+◌, Contains, IfOk, IfSome, flat_map, string_bytes, true};
ghost use Rattle.hm_lex.specs.Places.{IsBefore};
ghost use Rattle.hm_names.specs.Faults.Phases.{written};
ghost use Rattle.hm_messages_changes.specs.Holes.{IsPartOf};
ghost use Rattle.hm_messages_arguments.specs.Applied.{applied_of, module_applied};
ghost use Rattle.hm_messages_arguments.specs.Counts.{HasOneFewer, HasOneMore, IsRightOf, place_of};

use crate::applied::applied_in;
use crate::counts::{Both, are_same, first_other, has_one_more, modules_in, written_name};
use hm_lex::Place;
use hm_messages_changes::{Insertion, SourceRange, with_insertion, without};
use hm_syntax::Module;
use std::alloc::{AllocError, Global};

/// The numbers of arguments of a name, as the source is and after a change.
#[derive(Drop)]
pub struct Arguments {
    /// The name as it is written, a variable or a constructor.
    pub function: String,
    pub here: usize,
    pub then: usize,
}

/// Returns the numbers of both.
fn numbers(alloc: Global, both: Both<'_, '_>) -> Result<Arguments, AllocError>
    ensures { IfOk result (λ a. (string_bytes a.function ≡ written both.entry.here.name.now) × ((a.here ≡ both.entry.here.arguments) × (a.then ≡ both.entry.then.arguments))) }
{
    Ok(Arguments {
        function: written_name(alloc, both.here.name)?,
        here: both.here.arguments,
        then: both.then.arguments,
    })
}

/// Returns whether two places are the same.
fn is_same(one: Place, other: Place) -> bool
    ensures { result ≡ true → one ≡ other }
{
    one.line == other.line && one.column == other.column
}

/// Returns whether the second place is one column to the right of the first.
fn is_right_of(place: Place, next: Place) -> bool
    ensures { result ≡ true → IsRightOf place next }
{
    match place.column.checked_add(1) {
        Some(column) => next.line == place.line && next.column == column,
        None => false,
    }
}

/// Returns whether a name before an argument has one argument fewer in the second source.
fn is_one_fewer(both: Both<'_, '_>, argument: SourceRange) -> bool
    ensures before { result ≡ true → IsBefore (place_of both.entry.here.name.now) argument.start }
    ensures place { result ≡ true → place_of both.entry.here.name.now ≡ place_of both.entry.then.name.now }
    ensures name { result ≡ true → written both.entry.here.name.now ≡ written both.entry.then.name.now }
    ensures fewer { result ≡ true → both.entry.here.arguments ≡ both.entry.then.arguments + 1 }
{
    let here = both.here.name;
    let then = both.then.name;
    is_same(here.place, then.place)
        && here.place.is_before(argument.start)
        && are_same(here, then)
        && has_one_more(both.here, both.then)
}

/// Returns whether the name at the beginning of an expression has one argument more in the second source, one column to the right.
fn is_one_more(both: Both<'_, '_>, front: SourceRange) -> bool
    ensures at { result ≡ true → front.start ≡ place_of both.entry.here.name.now }
    ensures place { result ≡ true → IsRightOf front.start (place_of both.entry.then.name.now) }
    ensures name { result ≡ true → written both.entry.here.name.now ≡ written both.entry.then.name.now }
    ensures more { result ≡ true → both.entry.then.arguments ≡ both.entry.here.arguments + 1 }
{
    let here = both.here.name;
    let then = both.then.name;
    is_same(front.start, here.place)
        && is_right_of(front.start, then.place)
        && are_same(here, then)
        && has_one_more(both.then, both.here)
}

/// Returns the first name that has another number of arguments in the modules of another source.
fn both_in<'a, 'b>(
    alloc: Global,
    before: &'a [Module],
    after: &'b [Module],
) -> Result<Option<Both<'a, 'b>>, AllocError>
    ensures here { IfOk result (λ found. IfSome found (λ b. Contains (flat_map module_applied before.entry.now) (applied_of b.here))) }
    ensures then { IfOk result (λ found. IfSome found (λ b. Contains (flat_map module_applied after.entry.now) (applied_of b.then))) }
{
    let here = applied_in(alloc, before)?;
    let then = applied_in(alloc, after)?;
    Ok(first_other(here.as_slice(), then.as_slice()))
}

/// Returns the name that has one argument fewer if this one is left out, with both numbers. Returns `None` if it isn't found. An application of an
/// expression in brackets has none, unless that is a name.
pub fn arguments_without(
    alloc: Global,
    source: &[u8],
    argument: SourceRange,
) -> Result<Option<Arguments>, AllocError>
    requires { IsPartOf source.now argument }
    ensures { IfOk result (λ found. IfSome found (λ a. HasOneFewer source.now argument (string_bytes a.function) a.here a.then)) }
{
    let changed = without(alloc, source, argument.from, argument.to)?;
    let Some(before) = modules_in(alloc, source)? else {
        return Ok(None);
    };
    let Some(after) = modules_in(alloc, changed.as_slice())? else {
        return Ok(None);
    };
    match both_in(alloc, before.as_slice(), after.as_slice())? {
        Some(both) if is_one_fewer(both, argument) => Ok(Some(numbers(alloc, both)?)),
        _ => Ok(None),
    }
}

/// Returns the name at the beginning of an expression that has one argument more with the hole after the expression, with both numbers. Returns `None` if
/// the expression doesn't begin with a name.
pub fn arguments_with_one_more(
    alloc: Global,
    source: &[u8],
    front: SourceRange,
) -> Result<Option<Arguments>, AllocError>
    requires { IsPartOf source.now front }
    ensures { IfOk result (λ found. IfSome found (λ a. HasOneMore source.now front (string_bytes a.function) a.here a.then)) }
{
    let changed = with_insertion(alloc, source, Insertion::Argument, front)?;
    let Some(before) = modules_in(alloc, source)? else {
        return Ok(None);
    };
    let Some(after) = modules_in(alloc, changed.as_slice())? else {
        return Ok(None);
    };
    match both_in(alloc, before.as_slice(), after.as_slice())? {
        Some(both) if is_one_more(both, front) => Ok(Some(numbers(alloc, both)?)),
        _ => Ok(None),
    }
}
