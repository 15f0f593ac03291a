//! The sources of modules.
ghost use Rattle.std.specs.Prelude.{◌<◌, length};
ghost use Rattle.hm_messages.specs.Pages.{texts_in};
ghost use Rattle.hm_run_sources.specs.Origins.{HaveOrigins, IsSpelledBy};

use crate::view::BuildView;

/// Returns the number of the source that spells a module.
pub(crate) fn source_of(view: &BuildView<'_, '_, '_>, number: usize) -> usize
    requires origins { HaveOrigins (texts_in view.now.pages.now.items.items) (length view.now.modules.now) view.now.origins.now }
    requires number { number < length view.now.modules.now }
    ensures spelled { IsSpelledBy (texts_in view.now.pages.now.items.items) number result }
    ensures within { result < length view.now.pages.now.items.items }
{
    view.origins[number]
}
