//! Whether a check is of all sources as they are now.
ghost use Rattle.std.specs.Prelude.{◌≡◌, IfOk, IsTrue, false, map};
ghost use Rattle.hm_service_rename.specs.Sets.{IsWhole};
ghost use Rattle.hm_service_sources.specs.HeldSets.{AreAll, texts_of};

use hm_service_places::Checked;
use hm_service_sources::HeldSource;
use std::alloc::{AllocError, Global};

/// Returns copies of the texts of all sources as they are now.
pub(crate) fn current_texts(alloc: Global, held: &[HeldSource]) -> Result<Vec<Vec<u8>>, AllocError>
    ensures { IfOk result (λ texts. map (λ s. s.items) texts.items ≡ texts_of held.now) }
{
    let mut texts = Vec::new(alloc);
    for source in held {
        texts.push(Vec::from_slice(alloc, source.text.as_slice())?)?;
    }
    Ok(texts)
}

/// Returns whether these are all numbers below a number, in order.
fn are_all(count: usize, numbers: &[usize]) -> bool
    ensures yes { IsTrue result → AreAll count numbers.now }
    ensures no { result ≡ false → ¬ (AreAll count numbers.now) }
{
    if numbers.len() != count {
        return false;
    }
    'numbers: for i in 0..numbers.len() {
        if numbers[i] != i {
            return false;
        }
    }
    true
}

/// Returns whether two texts are the same.
fn is_same(text: &[u8], other: &[u8]) -> bool
    ensures yes { IsTrue result → text.now ≡ other.now }
    ensures no { result ≡ false → ¬ (text.now ≡ other.now) }
{
    text == other
}

/// Returns whether texts are the same.
fn are_same(texts: &[Vec<u8>], others: &[Vec<u8>]) -> bool
    ensures yes { IsTrue result → map (λ s. s.items) texts.now ≡ map (λ s. s.items) others.now }
    ensures no { result ≡ false → ¬ (map (λ s. s.items) texts.now ≡ map (λ s. s.items) others.now) }
{
    if texts.len() != others.len() {
        return false;
    }
    'texts: for i in 0..texts.len() {
        if !is_same(texts[i].as_slice(), others[i].as_slice()) {
            return false;
        }
    }
    true
}

/// Returns whether a check is of all sources with these texts, and skips no module.
pub(crate) fn is_whole(texts: &[Vec<u8>], checked: &Checked) -> bool
    ensures yes { IsTrue result → IsWhole (map (λ s. s.items) texts.now) checked.now }
    ensures no { result ≡ false → ¬ (IsWhole (map (λ s. s.items) texts.now) checked.now) }
{
    if !are_all(texts.len(), checked.part.as_slice()) {
        return false;
    }
    if !are_same(checked.texts.as_slice(), texts) {
        return false;
    }
    checked.told.skipped == 0
}
