//! The texts of a held set.
ghost use Rattle.std.specs.Prelude.{◌≡◌, ◌<◌, All, IfOk, length, map};
ghost use Rattle.hm_service_sources.specs.HeldSets.{AreUnread, standing_of, texts_at, texts_of};

use crate::held::HeldSource;
use crate::left_out::unmarked;
use std::alloc::{AllocError, Global};

/// The texts of a held set.
#[derive(Drop)]
pub struct HeldTexts {
    /// The numbers of the sources that can't be read.
    pub unread: Vec<usize>,
    /// Their texts as they are now.
    pub texts: Vec<Vec<u8>>,
    /// The texts that stand for all sources.
    pub standing: Vec<Vec<u8>>,
}

/// Returns copies of texts.
pub fn copies(alloc: Global, texts: &[Vec<u8>]) -> Result<Vec<Vec<u8>>, AllocError>
    ensures { IfOk result (λ copies. map (λ s. s.items) copies.items ≡ map (λ s. s.items) texts.now) }
{
    let mut copies = Vec::new(alloc);
    'texts: for text in texts {
        copies.push(Vec::from_slice(alloc, text.as_slice())?)?;
    }
    Ok(copies)
}

/// Returns copies of the texts with these numbers.
pub fn texts_at(
    alloc: Global,
    texts: &[Vec<u8>],
    numbers: &[usize],
) -> Result<Vec<Vec<u8>>, AllocError>
    requires { All (λ n. n < length texts.now) numbers.now }
    ensures { IfOk result (λ copies. map (λ s. s.items) copies.items ≡ texts_at (map (λ s. s.items) texts.now) numbers.now) }
{
    let mut copies = Vec::new(alloc);
    for number in numbers {
        copies.push(Vec::from_slice(alloc, texts[*number].as_slice())?)?;
    }
    Ok(copies)
}

/// Returns whether each source can be read.
fn reads_of(alloc: Global, held: &[HeldSource]) -> Result<Vec<bool>, AllocError>
    ensures { IfOk result (λ reads. reads.items ≡ map (λ h. h.is_read) held.now) }
{
    let mut reads = Vec::new(alloc);
    for source in held {
        reads.push(source.is_read)?;
    }
    Ok(reads)
}

/// Returns copies of the texts of all sources as they are now.
fn texts_of(alloc: Global, held: &[HeldSource]) -> Result<Vec<Vec<u8>>, AllocError>
    ensures { IfOk result (λ texts. map (λ s. s.items) texts.items ≡ texts_of held.now) }
{
    let mut texts = Vec::new(alloc);
    for source in held {
        texts.push(Vec::from_slice(alloc, source.text.as_slice())?)?;
    }
    Ok(texts)
}

/// Returns copies of the texts that stand for all sources.
fn standing_of(alloc: Global, held: &[HeldSource]) -> Result<Vec<Vec<u8>>, AllocError>
    ensures { IfOk result (λ texts. map (λ s. s.items) texts.items ≡ standing_of held.now) }
{
    let mut texts = Vec::new(alloc);
    for source in held {
        texts.push(Vec::from_slice(alloc, source.standing.as_slice())?)?;
    }
    Ok(texts)
}

/// Returns copies of the texts of a held set.
pub fn held_texts(alloc: Global, held: &[HeldSource]) -> Result<HeldTexts, AllocError>
    ensures unread { IfOk result (λ texts. AreUnread held.now texts.unread.items) }
    ensures texts { IfOk result (λ texts. map (λ s. s.items) texts.texts.items ≡ texts_at (texts_of held.now) texts.unread.items) }
    ensures standing { IfOk result (λ texts. map (λ s. s.items) texts.standing.items ≡ standing_of held.now) }
{
    let reads = reads_of(alloc, held)?;
    let unread = unmarked(alloc, reads.as_slice())?;
    let current = texts_of(alloc, held)?;
    let texts = texts_at(alloc, current.as_slice(), unread.as_slice())?;
    let standing = standing_of(alloc, held)?;
    Ok(HeldTexts {
        unread,
        texts,
        standing,
    })
}
