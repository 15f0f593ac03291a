//! A held set in which a source has another text.
ghost use Rattle.std.specs.Prelude.{◌≡◌, ◌<◌, ◌∷◌, ◌++◌, [], IfOk, OnOk, length};
ghost use Rattle.hm_service_offers.specs.Changed.{IsChangedSet, IsGiven, IsSameSource};
ghost use Rattle.hm_service_offers.specs.Steps.{AreAppended};

use hm_service_places::ServiceFault;
use hm_service_sources::{ChangeFault, HeldSource, change};
use std::alloc::{AllocError, Global};
use std::thread::Threads;

/// Returns a copy of a source.
fn copy_of(alloc: Global, source: &HeldSource) -> Result<HeldSource, AllocError>
    ensures { IfOk result (IsSameSource source.now) }
{
    let text = Vec::from_slice(alloc, source.text.as_slice())?;
    let standing = Vec::from_slice(alloc, source.standing.as_slice())?;
    Ok(HeldSource {
        text,
        standing,
        is_read: source.is_read,
    })
}

/// Appends a source.
fn add(held: &mut Vec<HeldSource>, source: HeldSource) -> Result<(), AllocError>
    ensures { OnOk result (held.new.items ≡ held.old.items ++ source ∷ []) }
{
    held.push(source)?;
    Ok(())
}

/// Appends copies of sources.
fn add_copies(
    alloc: Global,
    held: &mut Vec<HeldSource>,
    more: &[HeldSource],
) -> Result<(), AllocError>
    ensures { OnOk result (AreAppended more.now held.old.items held.new.items) }
{
    'more: for source in more {
        held.push(copy_of(alloc, source)?)?;
    }
    Ok(())
}

/// Returns a copy of a source that has another text.
fn given<T: Threads>(
    rt: &T,
    alloc: Global,
    source: &HeldSource,
    text: &[u8],
) -> Result<HeldSource, ServiceFault>
    ensures { IfOk result (IsGiven text.now source.now) }
{
    let mut made = copy_of(alloc, source)?;
    let text = Vec::from_slice(alloc, text)?;
    match change(rt, alloc, &mut made, text) {
        Ok(()) => Ok(made),
        Err(ChangeFault::Memory) => Err(ServiceFault::Memory),
        Err(ChangeFault::NoThread) => Err(ServiceFault::NoWorker),
    }
}

/// Returns a set in which the source with this number has another text.
pub(crate) fn changed_set<T: Threads>(
    rt: &T,
    alloc: Global,
    held: &[HeldSource],
    number: usize,
    text: &[u8],
) -> Result<Vec<HeldSource>, ServiceFault>
    requires { number < length held.now }
    ensures { IfOk result (λ later. IsChangedSet held.now number text.now later.items) }
{
    let mut later = Vec::new(alloc);
    add_copies(alloc, &mut later, &held[..number])?;
    let source = given(rt, alloc, &held[number], text)?;
    add(&mut later, source)?;
    add_copies(alloc, &mut later, &held[number + 1..])?;
    Ok(later)
}
