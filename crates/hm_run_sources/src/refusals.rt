//! The text of a refusal.
ghost use Rattle.std.specs.Prelude.{◌≡◌, IfOk, string_bytes};
ghost use Rattle.hm_run_sources.specs.Refusals.{IsLasting, at_place as line_at, lex, plan, refusal_text as refusal_bytes};

use crate::{SetFault, SetFaultKind};
use hm_graph::PlanFault;
use hm_lex::{LexFault, Place};
use hm_parse::ParseFault;
use std::alloc::{AllocError, Global};

/// Returns the line for a fault at a place of a source.
fn at_place(alloc: Global, source: usize, place: Place, words: &str) -> Result<String, AllocError>
    ensures { IfOk result (λ text. string_bytes text ≡ line_at source place words.now) }
{
    let Place { line, column } = place;
    format!(in alloc; "refused: source {source} at {line}:{column}: {words}\n")
}

fn lex_text(alloc: Global, source: usize, fault: LexFault) -> Result<String, AllocError>
    requires { IsLasting (lex source fault) }
    ensures { IfOk result (λ text. string_bytes text ≡ refusal_bytes (lex source fault)) }
{
    match fault {
        LexFault::TooLong => format!(in alloc; "refused: source {source} too long\n"),
        LexFault::Lexeme(place) => at_place(alloc, source, place, "lexeme"),
        LexFault::OpenComment(place) => at_place(alloc, source, place, "open comment"),
        LexFault::TooDeep(place) => at_place(alloc, source, place, "too deep"),
        LexFault::Memory => unreachable!(),
    }
}

fn plan_text(
    alloc: Global,
    fault: PlanFault,
    name: &str,
    missing: &str,
) -> Result<String, AllocError>
    requires { IsLasting (plan fault name.now missing.now) }
    ensures { IfOk result (λ text. string_bytes text ≡ refusal_bytes (plan fault name.now missing.now)) }
{
    match fault {
        PlanFault::TooMany => String::from_str(alloc, "refused: too many modules\n"),
        PlanFault::Duplicate { .. } => format!(in alloc; "refused: module {name} twice\n"),
        PlanFault::Missing { .. } => {
            format!(in alloc; "refused: module {name} imports missing {missing}\n")
        }
        PlanFault::Cycle { .. } => format!(in alloc; "refused: module {name} in a cycle\n"),
        PlanFault::Memory => unreachable!(),
    }
}

/// Returns the line that says why a set is refused.
pub fn refusal_text(alloc: Global, fault: &SetFault) -> Result<String, AllocError>
    ensures { IfOk result (λ text. string_bytes text ≡ refusal_bytes fault.now) }
{
    match &fault.kind {
        SetFaultKind::Lex { source, fault } => lex_text(alloc, *source, *fault),
        SetFaultKind::Parse { source, fault } => match fault {
            ParseFault::Syntax(place) => at_place(alloc, *source, *place, "syntax"),
            ParseFault::Memory => unreachable!(),
        },
        SetFaultKind::Plan {
            fault,
            module,
            import,
        } => plan_text(alloc, *fault, module.as_str(), import.as_str()),
    }
}
