//! Where the modules of sources start.
ghost use Rattle.std.specs.Prelude.{◌≡◌, IfOk, length, map};
ghost use Rattle.std.specs.Arc.{arc_value};
ghost use Rattle.hm_messages.specs.ModuleStarts.{header_start, module_start, start_of};

use hm_messages::ModuleStart;
use hm_syntax::{Header, Module};
use std::alloc::{AllocError, Global};
use std::sync::Arc;

/// Returns where the module with this header starts.
fn start_at<'h>(header: &'h Header, source: usize) -> ModuleStart<'h>
    ensures start { start_of result ≡ header_start header.entry.now }
    ensures source { result.source ≡ source }
{
    let name = &header.name;
    ModuleStart {
        source,
        place: name.place,
        name: name.as_str(),
    }
}

/// Returns where these modules start. `origins` has the number of each module's source.
pub fn starts_of<'m>(
    alloc: Global,
    modules: &'m [Arc<Module>],
    origins: &[usize],
) -> Result<Vec<ModuleStart<'m>>, AllocError>
    requires { length origins.now ≡ length modules.now }
    ensures named { IfOk result (λ starts. map start_of starts.items ≡ map (λ m. module_start (arc_value m)) modules.entry.now) }
    ensures sources { IfOk result (λ starts. map (λ s. s.source) starts.items ≡ origins.now) }
{
    let mut starts = Vec::new(alloc);
    for number in 0..modules.len() {
        starts.push(start_at(&modules[number].header, origins[number]))?;
    }
    Ok(starts)
}
