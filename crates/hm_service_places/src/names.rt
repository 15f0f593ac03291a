//! The names of sources of a held set.
ghost use Rattle.std.specs.Prelude.{◌≡◌, IfOk, map};
ghost use Rattle.hm_service_places.specs.Names.{names_of};

use std::alloc::{AllocError, Global};

/// Returns the names of sources: their numbers.
pub fn names_of(alloc: Global, numbers: &[usize]) -> Result<Vec<Vec<u8>>, AllocError>
    ensures { IfOk result (λ names. map (λ n. n.items) names.items ≡ names_of numbers.now) }
{
    let mut names = Vec::new(alloc);
    for number in numbers {
        let name = format!(in alloc; "{number}")?;
        names.push(name.into_bytes())?;
    }
    Ok(names)
}
