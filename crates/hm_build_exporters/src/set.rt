//! A settled set of modules.
ghost use Rattle.std.specs.Prelude.{◌≡◌, IfSome};
ghost use Rattle.hm_verdicts.specs.Verdicts.{Published};
ghost use Rattle.hm_build_reports.specs.Settling.{status_of};

use hm_build_reports::Settled;
use hm_graph::Plan;
use hm_syntax::Module;
use hm_types::Interface;
use std::sync::Arc;

/// The modules of a set with their import plan, and the status of each.
#[derive(Clone, Copy)]
pub struct SettledSet<'t, 'm> {
    pub modules: &'m [Arc<Module>],
    pub plan: &'m Plan,
    pub settled: &'t [Settled<'m>],
}

/// Returns the interface of a module with this status, if it is good.
pub(crate) fn interface_of<'m>(settled: &Settled<'m>) -> Option<&'m Interface>
    ensures { IfSome result (λ f. status_of settled.now ≡ Published f.now) }
{
    match settled {
        Settled::Published(interface) => Some(interface),
        Settled::Failed(_) => None,
        Settled::Skipped => None,
    }
}
