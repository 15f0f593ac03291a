//! Worked examples. Each is a function with an empty body, and its contract states the example.
ghost use Rattle.hm_lsp_values.specs.Worked.{CompletionsRow, HoverRow, RenamesRow, SpanRow, SymbolsRow, ValuesRow};

/// Positions, severities and texts.
#[tactic(auto, using(crate::proofs::WorkedValues::worked_values))]
pub fn worked_values()
    ensures { ValuesRow }
{}

/// What is shown of a name.
#[tactic(auto, using(crate::proofs::WorkedValues::worked_hover))]
pub fn worked_hover()
    ensures { HoverRow }
{}

/// Where a name is written.
#[tactic(auto, using(crate::proofs::WorkedSpans::worked_spans))]
pub fn worked_spans()
    ensures { SpanRow }
{}

/// A symbol, and the numbers of kinds.
#[tactic(auto, using(crate::proofs::WorkedValues::worked_symbols))]
pub fn worked_symbols()
    ensures { SymbolsRow }
{}

/// The edits of a rename.
#[tactic(auto, using(crate::proofs::WorkedSpans::worked_renames))]
pub fn worked_renames()
    ensures { RenamesRow }
{}

/// Names that may be written, with and without a type.
#[tactic(auto, using(crate::proofs::WorkedCompletions::worked_completions))]
pub fn worked_completions()
    ensures { CompletionsRow }
{}
