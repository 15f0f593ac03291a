//! The two copies of the published interfaces. Readers read one while the other is written.
ghost use Rattle.std.specs.Prelude.{◌≡◌, ◌≢◌, ◌<◌, ◌^◌, ◌++◌, ◌∷◌, [], IfOk, IfErr};
ghost use Rattle.hm_store_published.specs.Publications.{MayFollow};
ghost use Rattle.left_right.specs.Handles.{pending, published};

use crate::history::{Front, History, Naming};
use crate::publication::Publication;
use crate::published::{Published, Step};
use crate::reading::Reader;
use left_right::WriteHandle;
use std::alloc::{AllocError, Global};
use std::sync::Wait;

/// Returns two copies for `modules` modules and `readers` readers. No module is published in them.
pub fn opened<J: Naming, R: Wait + Drop>(
    alloc: Global,
    rt: R,
    front: &Front<J>,
    modules: usize,
    readers: usize,
) -> Result<WriteHandle<Published<J>, Step<J>, R>, AllocError>
    requires empty { front.now ≡ [] }
    requires readers { (0 < readers) × (readers < 2 ^ 32) }
    ensures { IfOk result (λ w. published w ≡ []) }
{
    let first = Published::new(alloc, front.again(), modules)?;
    let second = Published::new(alloc, front.again(), modules)?;
    Ok(WriteHandle::new(alloc, rt, first, second, readers)?)
}

/// Adds a publication, and waits for readers of the copy that it writes. Returns the list that ends with the publication.
///
/// # Errors
///
/// If an allocation fails, readers see no change. If it failed for the copies, the operation stays pending, and each later publication is
/// refused too. The same holds if it failed for the operations, because the list is ahead of the copies then.
pub fn publish<J: Naming, R: Wait + Drop>(
    pages: &mut WriteHandle<Published<J>, Step<J>, R>,
    history: &History<J>,
    front: &Front<J>,
    publication: &Publication,
) -> Result<Front<J>, AllocError>
    requires all { published pages.old ≡ front.now }
    requires lawful { MayFollow J.modules J.plan front.now publication.now }
    requires place { publication.now.place < 2 ^ 62 }
    ensures ok { IfOk result (λ f. f ≡ front.now ++ publication.now ∷ []) }
    ensures all { IfOk result (λ f. published pages.new ≡ f) }
    ensures err { IfErr result (λ _. published pages.new ≡ published pages.old) }
    // While an operation is pending, each publication is refused, and the operation stays.
    ensures ready { IfOk result (λ _. pending pages.old ≡ []) }
    ensures stays { pending pages.old ≢ [] → pending pages.new ≡ pending pages.old }
{
    if pages.has_pending_operations() {
        return Err(AllocError);
    }
    let step = Step::next(history, front, publication)?;
    let longer = step.front();
    if pages.append(step).is_err() {
        return Err(AllocError);
    }
    match pages.publish() {
        Ok(()) => Ok(longer),
        Err(AllocError) => Err(AllocError),
    }
}

/// Returns a reader that has seen this front.
pub fn reader<J: Naming, R: Wait + Drop>(
    pages: &WriteHandle<Published<J>, Step<J>, R>,
    front: &Front<J>,
) -> Result<Reader<J>, AllocError>
    ensures { IfOk result (λ r. r ≡ front.now) }
{
    let entrance = pages.handle()?;
    Ok(Reader::new(entrance, front.again()))
}
