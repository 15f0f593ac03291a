//! The message of a module that can't be checked because memory ran out.
ghost use Rattle.std.specs.Prelude.{IfSome, map};
ghost use Rattle.hm_build_output.specs.Outputs.{IsExhaustionFor};
ghost use Rattle.hm_run_sources.specs.Origins.{IsModuleOf};

use crate::options::RunOptions;
use hm_build_messages::module_message;
use hm_run_sources::SourceModule;
use std::alloc::Global;

/// Returns the message that there is no memory to check this module. Returns `None` if messages aren't requested, or if there is no memory for
/// the message either.
pub fn exhausted_message<'a>(
    alloc: Global,
    sources: &'a [Vec<u8>],
    run_options: &'a RunOptions,
    here: &'a SourceModule,
) -> Option<Vec<u8>>
    requires { IsModuleOf (map (λ s. s.items) sources.now) here.now }
    ensures { IfSome result (λ m. IsExhaustionFor run_options.now.messages (map (λ s. s.items) sources.now) m.items) }
{
    match &run_options.messages {
        Some(options) => module_message(alloc, sources, options, here).ok(),
        None => None,
    }
}
