//! Parts of a set of sources.
ghost use Rattle.std.specs.Prelude.{◌<◌, ◌≤◌, length};

use hm_run_sources::{CountedModules, SetError};
use std::thread::Promise;

/// The sources `from..to` of a set, numbered from 0.
#[derive(Clone, Copy)]
pub(crate) struct Part<'a> {
    pub sources: &'a [Vec<u8>],
    pub from: usize,
    pub to: usize,
    /// The bytes of stack for a thread that makes their modules.
    pub stack: usize,
}

/// What a thread promises about the modules of a part.
impl<'a> Promise<Result<CountedModules, SetError>> for Part<'a> {
    ghost use Rattle.std.specs.Prelude.{IfErr, IfOk, map, take};
    ghost use Rattle.hm_run_sources.specs.Parts.{FailsBehind, Follow};

    ghost kept_by = { λ p r. IfOk r (λ read. Follow (map (λ s. s.items) (take p.from p.sources.now)) (map (λ s. s.items) (take p.to p.sources.now)) read.modules.items read.counts.items) × IfErr r (FailsBehind (map (λ s. s.items) p.sources.now) (map (λ s. s.items) (take p.from p.sources.now))) };
}

// Why: docs/DECISIONS.md, "Parts of sources".
/// Returns the end of a part that begins at this source and has at least this many bytes. If too few are left, returns the number of sources.
pub(crate) fn part_end(sources: &[Vec<u8>], from: usize, bytes: usize) -> usize
    requires { from < length sources.now }
    ensures some { from < result }
    ensures inside { result ≤ length sources.now }
{
    let mut held: usize = 0;
    for number in from..sources.len() {
        held = held.saturating_add(sources[number].len());
        if held >= bytes {
            return number + 1;
        }
    }
    sources.len()
}

/// Returns the least number of bytes of a part, for at most `parts` parts. Only the last part may have fewer.
pub(crate) fn bytes_of_part(sources: &[Vec<u8>], parts: usize) -> usize {
    let mut all: usize = 0;
    for source in sources {
        all = all.saturating_add(source.len());
    }
    (all / parts.max(1)).saturating_add(1)
}
