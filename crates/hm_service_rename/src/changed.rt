//! The held set that a rename makes.
ghost use Rattle.std.specs.Prelude.{◌≡◌, ◌∷◌, ◌++◌, [], IfNone, IfOk, IfSome, OnOk, map, true};
ghost use Rattle.std.specs.List.{Any};
ghost use Rattle.hm_service_rename.specs.Sets.{AreHeldAs};
ghost use Rattle.hm_service_sources.specs.Standing.{IsUnreadable};

use hm_service_places::ServiceFault;
use hm_service_sources::{ChangeFault, HeldSource, change};
use std::alloc::{AllocError, Global};
use std::thread::Threads;

/// Returns a source with a text that can be read, or `None` if it can't.
fn source_with<T: Threads>(
    rt: &T,
    alloc: Global,
    text: Vec<u8>,
) -> Result<Option<HeldSource>, ServiceFault>
    ensures text { IfOk result (λ made. IfSome made (λ source. source.text.items ≡ text.items)) }
    ensures standing { IfOk result (λ made. IfSome made (λ source. source.standing.items ≡ text.items)) }
    ensures read { IfOk result (λ made. IfSome made (λ source. source.is_read ≡ true)) }
    ensures unread { IfOk result (λ made. IfNone made (IsUnreadable text.items)) }
{
    let mut source = HeldSource::new(alloc);
    match change(rt, alloc, &mut source, text) {
        Ok(()) => {}
        Err(ChangeFault::Memory) => return Err(ServiceFault::Memory),
        Err(ChangeFault::NoThread) => return Err(ServiceFault::NoWorker),
    }
    if !source.is_read {
        return Ok(None);
    }
    if source.standing.as_slice() != source.text.as_slice() {
        return Err(ServiceFault::Mixed);
    }
    Ok(Some(source))
}

/// Appends a source.
fn add(held: &mut Vec<HeldSource>, source: HeldSource) -> Result<(), AllocError>
    ensures { OnOk result (held.new.items ≡ held.old.items ++ source ∷ []) }
{
    held.push(source)?;
    Ok(())
}

/// Returns sources with these texts, or `None` if one can't be read.
pub(crate) fn held_with<T: Threads>(
    rt: &T,
    alloc: Global,
    texts: &[Vec<u8>],
) -> Result<Option<Vec<HeldSource>>, ServiceFault>
    ensures held { IfOk result (λ made. IfSome made (λ held. AreHeldAs (map (λ s. s.items) texts.now) held.items)) }
    ensures unread { IfOk result (λ made. IfNone made (Any IsUnreadable (map (λ s. s.items) texts.now))) }
{
    let mut held = Vec::new(alloc);
    'texts: for text in texts {
        let copy = Vec::from_slice(alloc, text.as_slice())?;
        match source_with(rt, alloc, copy)? {
            Some(source) => add(&mut held, source)?,
            None => return Ok(None),
        }
    }
    Ok(Some(held))
}
