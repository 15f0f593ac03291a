//! What the search finds, in tokens.

use crate::constructors::Wrapper;
use crate::insertions::Insertion;
use hm_messages_outline::Run;

/// What is reported of a definition.
#[derive(Clone, Copy)]
pub enum Reported {
    Expression(Run),
    /// A pattern, and the clause, alternative or lambda that it is of.
    Pattern(Run, Run),
    /// Two expressions that are exchanged.
    Exchange(Run, Run),
    /// An argument that is left out, and the expression that is reported if the definition has no type without it in the whole source.
    Removal(Run, Run),
    /// The two sides of a `:` that are exchanged.
    Sides(Run, Run),
    /// Two patterns that are exchanged.
    Patterns(Run, Run),
    /// A text that is put in around an expression, or before it.
    Insertion(Insertion, Run),
    /// A constructor in front of an expression.
    Wrapped(Wrapper, Run),
}

/// Returns the run, as if its token with the first number had the second one.
fn moved(run: Run, from: usize, to: usize) -> Run {
    Run {
        start: run.start.saturating_sub(from).saturating_add(to),
        end: run.end.saturating_sub(from).saturating_add(to),
    }
}

impl Reported {
    /// Returns whether this says what to write, and not only that another expression or pattern is needed.
    pub fn is_change(self) -> bool {
        match self {
            Reported::Expression(_) | Reported::Pattern(_, _) => false,
            _ => true,
        }
    }

    /// Returns the same, as if the token with the first number had the second one.
    pub fn moved(self, from: usize, to: usize) -> Reported {
        match self {
            Reported::Expression(run) => Reported::Expression(moved(run, from, to)),
            Reported::Pattern(run, around) => {
                Reported::Pattern(moved(run, from, to), moved(around, from, to))
            }
            Reported::Exchange(first, second) => {
                Reported::Exchange(moved(first, from, to), moved(second, from, to))
            }
            Reported::Removal(argument, around) => {
                Reported::Removal(moved(argument, from, to), moved(around, from, to))
            }
            Reported::Sides(first, second) => {
                Reported::Sides(moved(first, from, to), moved(second, from, to))
            }
            Reported::Patterns(first, second) => {
                Reported::Patterns(moved(first, from, to), moved(second, from, to))
            }
            Reported::Insertion(insertion, run) => {
                Reported::Insertion(insertion, moved(run, from, to))
            }
            Reported::Wrapped(wrapper, run) => Reported::Wrapped(wrapper, moved(run, from, to)),
        }
    }
}
