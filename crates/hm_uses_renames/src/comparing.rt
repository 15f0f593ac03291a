//! The names of a set before and after a rename.
ghost use Rattle.std.specs.Prelude.{◌≡◌, ◌↔◌, ◌<◌, ℕ, IfOk, IfSome, IsTrue, length, slice_index_or};
ghost use Rattle.hm_uses_references.specs.SetNames.{IsSame, SetName};
ghost use Rattle.hm_uses_renames.specs.Renames.{AreRenamed, Becomes};

use crate::firsts::{are_paired, firsts_of};
use crate::standing::becomes;
use hm_uses_references::{SetUse, is_same};
use std::alloc::{AllocError, Global};

/// Returns whether each name is what it becomes if the name `of` is renamed.
fn all_become(of: &SetUse<'_>, name: &str, names: &[SetUse<'_>], later: &[SetUse<'_>]) -> bool
    requires { length names.now ≡ length later.now }
    ensures { IsTrue result → (i : ℕ) (d : SetName) → i < length names.now → Becomes of.now name.now (slice_index_or names.now i d) (slice_index_or later.now i d) }
{
    'names: for i in 0..names.len() {
        if !becomes(of, name, &names[i], &later[i]) {
            return false;
        }
    }
    true
}

/// Returns the number of a name that means the same as another one.
fn number_of(of: &SetUse<'_>, names: &[SetUse<'_>]) -> Option<usize>
    ensures { IfSome result (λ k. k < length names.now) }
{
    'names: for number in 0..names.len() {
        if is_same(of, &names[number]) {
            return Some(number);
        }
    }
    None
}

/// Returns whether names of one list mean the same as one name exactly where those of the other mean the same as another.
fn are_of(one: &SetUse<'_>, other: &SetUse<'_>, names: &[SetUse<'_>], later: &[SetUse<'_>]) -> bool
    requires { length names.now ≡ length later.now }
    ensures { IsTrue result → (i : ℕ) (d : SetName) → i < length names.now → IsSame one.now (slice_index_or names.now i d) ↔ IsSame other.now (slice_index_or later.now i d) }
{
    'names: for i in 0..names.len() {
        if is_same(one, &names[i]) != is_same(other, &later[i]) {
            return false;
        }
    }
    true
}

/// Returns whether the second names are the first ones, in order, after the name `of` has got the new name wherever it is written. Each other name means
/// what it meant, and no two have become one.
///
/// # Errors
///
/// If memory runs out.
pub fn are_renamed(
    alloc: Global,
    of: &SetUse<'_>,
    name: &str,
    names: &[SetUse<'_>],
    later: &[SetUse<'_>],
) -> Result<bool, AllocError>
    ensures { IfOk result (λ renamed. IsTrue renamed → AreRenamed of.now name.now names.now later.now) }
{
    if names.len() != later.len() {
        return Ok(false);
    }
    let Some(number) = number_of(of, names) else {
        return Ok(false);
    };
    if !all_become(of, name, names, later) {
        return Ok(false);
    }
    if !are_of(of, &later[number], names, later) {
        return Ok(false);
    }
    let firsts = firsts_of(alloc, names)?;
    let later_firsts = firsts_of(alloc, later)?;
    if !are_paired(&firsts, names, later) {
        return Ok(false);
    }
    Ok(are_paired(&later_firsts, later, names))
}
