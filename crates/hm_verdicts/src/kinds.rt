//! The words for the kinds of faults.
ghost use Rattle.std.specs.Prelude.{◌≡◌};
ghost use Rattle.hm_verdicts.specs.Reports.{kind_word as kind_bytes};

use hm_names::Kind;

/// Returns the word for a kind of fault.
pub fn kind_word(kind: Kind) -> &'static str
    ensures { result.now ≡ kind_bytes kind }
{
    match kind {
        Kind::NotExported => "not-exported",
        Kind::Duplicate => "duplicate",
        Kind::NoBinding => "no-binding",
        Kind::Unbound => "unbound",
        Kind::Ambiguous => "ambiguous",
        Kind::ExportClash => "export-clash",
        Kind::NotImported => "not-imported",
        Kind::NonLinear => "non-linear",
        Kind::Arity => "arity",
        Kind::ClauseLength => "clause-length",
        Kind::Untyped => "type",
        Kind::Recursive => "recursive",
    }
}
