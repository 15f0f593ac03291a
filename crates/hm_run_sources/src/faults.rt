//! Why a set of sources is refused.
use hm_graph::PlanFault;
use hm_lex::LexFault;
use hm_parse::ParseFault;
use std::marker::Model;

// Why: docs/DECISIONS.md, "SetFault".
/// Why a set of sources is refused. Running out of memory isn't such a reason.
#[derive(Debug, Drop)]
pub struct SetFault {
    pub kind: SetFaultKind,
}

impl Model for SetFault {
    ghost use Rattle.hm_run_sources.specs.Refusals.{IsLasting, Refusal, refusal_of};

    ghost Value = { Refusal };

    ghost view = { λ f. refusal_of f.kind };

    ghost invariant = { λ f. IsLasting (refusal_of f.kind) };
}

/// The kinds of refusals. Sources are numbered from 1. A fault without a module or an import has an empty name for it.
#[derive(Debug, Drop)]
pub enum SetFaultKind {
    Lex {
        source: usize,
        fault: LexFault,
    },
    Parse {
        source: usize,
        fault: ParseFault,
    },
    Plan {
        fault: PlanFault,
        module: String,
        import: String,
    },
}
