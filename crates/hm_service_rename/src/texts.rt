//! The texts of a set with a new name.
ghost use Rattle.std.specs.Prelude.{◌≡◌, ◌≤◌, ◌<◌, All, IfOk, IfSome, length, map, slice_range};
ghost use Rattle.hm_service_rename.specs.Replaced.{AreReplaced};

use hm_uses_references::Reference;
use hm_uses_renames::renamed_text;
use std::alloc::{AllocError, Global};

/// Returns where the references of a source end that begin with this one.
fn end_of(references: &[Reference], from: usize, source: usize) -> usize
    requires { from ≤ length references.now }
    ensures later { from ≤ result }
    ensures within { result ≤ length references.now }
    ensures own { All (λ r. r.source ≡ source) (slice_range references.now from result) }
{
    'references: for end in from..references.len() {
        if references[end].source != source {
            return end;
        }
    }
    references.len()
}

/// Returns the texts with a new name in place of these references, or `None` if they aren't in order in the texts.
pub(crate) fn renamed_texts(
    alloc: Global,
    texts: &[Vec<u8>],
    references: &[Reference],
    name: &str,
) -> Result<Option<Vec<Vec<u8>>>, AllocError>
    ensures { IfOk result (λ made. IfSome made (λ v. AreReplaced (map (λ s. s.items) texts.now) name.now references.now (map (λ s. s.items) v.items))) }
{
    let mut made = Vec::new(alloc);
    let mut from = 0;
    'texts: for source in 0..texts.len() {
        let end = end_of(references, from, source);
        let own = &references[from..end];
        match renamed_text(alloc, texts[source].as_slice(), own, name)? {
            Some(text) => made.push(text)?,
            None => return Ok(None),
        }
        from = end;
    }
    if from < references.len() {
        return Ok(None);
    }
    Ok(Some(made))
}
