//! Worked examples. Each is a function with an empty body, whose contract is the example.
ghost use Rattle.hm_build_earlier.specs.Worked.{KnownRow};

/// An empty text in an earlier build.
#[tactic(auto, using(crate::proofs::Worked::worked_sources))]
pub fn worked_sources()
    ensures { KnownRow }
{}
