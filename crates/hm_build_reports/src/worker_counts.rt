//! The number of workers of a build.
ghost use Rattle.std.specs.Prelude.{◌≡◌, ◌⊎◌, ◌<◌, ◌≤◌, true, false};

/// The largest number of workers.
const MOST_WORKERS: usize = 16;

/// Returns whether a build may have this many workers.
pub fn may_work(workers: usize) -> bool
    ensures allowed { result ≡ true → (0 < workers) × (workers ≤ 16) }
    ensures refused { result ≡ false → (workers ≡ 0) ⊎ (16 < workers) }
{
    (1..=MOST_WORKERS).contains(&workers)
}
