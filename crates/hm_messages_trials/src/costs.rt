//! The costs of explanations, and their limits.
ghost use Rattle.std.specs.Prelude.{◌≡◌, false, true};
ghost use Rattle.hm_messages_trials.specs.Limits.{IsUsedUp};

use hm_messages_outline::Outline;
use hm_parse_grammar::Symbol;

/// The most trials for the explanation of a fault.
pub(crate) const MOST_TRIALS: usize = 200;

/// The most that the explanations of a run may cost. A trial costs `COST_OF_TRIAL`, one for each byte of its source, and `COST_OF_COLON` for
/// each `:`.
const MOST_COST: usize = 1 << 21;

/// The cost of a trial of an empty source.
pub(crate) const COST_OF_TRIAL: usize = 1 << 12;

/// A row of `:` is a tree as deep as the row is long. It takes longer to check than other sources.
const COST_OF_COLON: usize = 1 << 5;

// Why: docs/DECISIONS.md, "The cost of :".
/// Returns the cost of a trial of a source.
pub fn cost_of(source: &[u8], outline: &Outline) -> usize {
    let mut cost = source.len().saturating_add(COST_OF_TRIAL);
    for at in 0..outline.len() {
        if outline.symbol(at).is(Symbol::Colon) {
            cost = cost.saturating_add(COST_OF_COLON);
        }
    }
    cost
}

// Why: docs/DECISIONS.md, "Bounds of trials".
/// The cost and the trials that are left for explanations.
#[derive(Clone, Copy)]
pub struct Effort {
    left: usize,
    /// The number of trials that are left for the current fault.
    trials: usize,
}

impl Effort {
    /// Returns the effort for all explanations of a run.
    pub fn of_run() -> Effort
        ensures { ¬ (IsUsedUp result) }
    {
        Effort {
            left: MOST_COST,
            trials: 0,
        }
    }

    /// Starts with another fault.
    pub(crate) fn begin(&mut self)
        ensures { IsUsedUp self.old → IsUsedUp self.new }
    {
        self.trials = MOST_TRIALS;
    }

    /// Takes off a trial of this cost, and returns whether the effort was enough for it. If it wasn't, nothing is left for the run.
    pub fn pays(&mut self, cost: usize) -> bool
        ensures refused { IsUsedUp self.old → result ≡ false }
        ensures stays { IsUsedUp self.old → IsUsedUp self.new }
    {
        if self.left == 0 || self.trials == 0 {
            return false;
        }
        match self.left.checked_sub(cost) {
            Some(left) => {
                self.left = left;
                self.trials -= 1;
                true
            }
            None => {
                self.left = 0;
                self.trials = 0;
                false
            }
        }
    }

    /// Takes off what walks over the tokens of a source cost, and returns whether the effort was enough for it. So the walks of all faults of a module end
    /// in time.
    pub(crate) fn pays_for_walks(&mut self, source: &[u8]) -> bool
        ensures refused { IsUsedUp self.old → result ≡ false }
        ensures stays { IsUsedUp self.old → IsUsedUp self.new }
    {
        self.pays(source.len())
    }

    /// Returns whether no trial is left.
    pub(crate) fn is_spent(&self) -> bool {
        self.trials == 0
    }

    /// Returns whether nothing is left for the run.
    pub fn is_used_up(&self) -> bool
        ensures yes { result ≡ true → IsUsedUp self.now }
        ensures no { result ≡ false → ¬ (IsUsedUp self.now) }
    {
        self.left == 0
    }
}
