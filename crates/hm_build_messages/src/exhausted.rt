//! The message of a module that can't be checked because memory ran out.
ghost use Rattle.std.specs.Prelude.{IfOk, map};
ghost use Rattle.hm_build_messages.specs.Explained.{StatesExhaustion};
ghost use Rattle.hm_run_sources.specs.Origins.{IsModuleOf};

use crate::options::MessageOptions;
use hm_messages::{Topic, message, pages_of};
use hm_run_sources::SourceModule;
use std::alloc::{AllocError, Global};

/// Returns the message of a module, at its name.
pub fn module_message<'a>(
    alloc: Global,
    sources: &'a [Vec<u8>],
    explain: &'a MessageOptions,
    here: &'a SourceModule,
) -> Result<Vec<u8>, AllocError>
    requires { IsModuleOf (map (λ s. s.items) sources.now) here.now }
    ensures { IfOk result (λ m. StatesExhaustion explain.now.format (map (λ s. s.items) explain.now.names.items) (map (λ s. s.items) sources.now) m.items) }
{
    let name = &here.name;
    let pages = pages_of(alloc, explain.format, sources, &explain.names, &[])?;
    let page = &pages.items[here.source];
    let topic = Topic::Exhausted(name.as_str());
    Ok(message(alloc, pages.format, page, name.place, &topic)?)
}
