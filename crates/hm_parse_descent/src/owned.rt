//! Steps that take a part of a tree and return it, or drop it if an allocation fails. They are generic, so the drop of a tree isn't proved
//! again at each place where one may be lost.
ghost use Rattle.std.specs.Prelude.{◌≡◌, [], ◌∷◌, IfOk};

use std::alloc::{AllocError, Global};

/// Returns the part in a box.
pub(crate) fn boxed<T: Drop>(alloc: Global, part: T) -> Result<Box<T>, AllocError>
    ensures { IfOk result (λ b. b.value ≡ part) }
{
    Ok(Box::new(alloc, part)?)
}

/// Returns both parts, each in a box.
pub(crate) fn both_boxed<T: Drop, U: Drop>(
    alloc: Global,
    first: T,
    second: U,
) -> Result<(Box<T>, Box<U>), AllocError>
    ensures { IfOk result (λ boxes. (boxes.0.value ≡ first) × (boxes.1.value ≡ second)) }
{
    let first = boxed(alloc, first)?;
    let second = boxed(alloc, second)?;
    Ok((first, second))
}

/// Returns a list with this part, and room for a second one.
pub(crate) fn first_of_two<T: Drop>(alloc: Global, part: T) -> Result<Vec<T>, AllocError>
    ensures { IfOk result (λ parts. parts.items ≡ part ∷ []) }
{
    let mut parts = Vec::with_capacity(alloc, 2)?;
    parts.push(part)?;
    Ok(parts)
}

/// Returns a list with only this part.
pub(crate) fn only<T: Drop>(alloc: Global, part: T) -> Result<Vec<T>, AllocError>
    ensures { IfOk result (λ parts. parts.items ≡ part ∷ []) }
{
    let mut parts = Vec::with_capacity(alloc, 1)?;
    parts.push(part)?;
    Ok(parts)
}
