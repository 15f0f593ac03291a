//! The phases in which faults are found.
ghost use Rattle.std.specs.Prelude.{◌≡◌, IsTrue, false};
ghost use Rattle.hm_service_fixes.specs.Phases.{IsEarlier, first_phase as first, last_phase as last};

use hm_names::Kind;

/// Returns the number of the first phase in which faults of a kind are found.
fn first_phase(kind: Kind) -> u8
    ensures { result ≡ first kind }
{
    match kind {
        Kind::NotExported => 1,
        Kind::Duplicate => 2,
        Kind::NoBinding => 2,
        Kind::Unbound => 3,
        Kind::Ambiguous => 3,
        Kind::ExportClash => 3,
        Kind::NotImported => 3,
        Kind::NonLinear => 4,
        Kind::Arity => 5,
        Kind::ClauseLength => 5,
        Kind::Untyped => 6,
        Kind::Recursive => 5,
    }
}

/// Returns the number of the last phase in which faults of a kind are found.
fn last_phase(kind: Kind) -> u8
    ensures { result ≡ last kind }
{
    match kind {
        Kind::NotExported => 1,
        Kind::Duplicate => 2,
        Kind::NoBinding => 2,
        Kind::Unbound => 4,
        Kind::Ambiguous => 4,
        Kind::ExportClash => 3,
        Kind::NotImported => 3,
        Kind::NonLinear => 4,
        Kind::Arity => 5,
        Kind::ClauseLength => 5,
        Kind::Untyped => 6,
        Kind::Recursive => 5,
    }
}

/// Returns whether faults of a kind are of earlier phases than those of another one.
pub(crate) fn is_earlier(kind: Kind, other: Kind) -> bool
    ensures yes { IsTrue result → IsEarlier kind other }
    ensures no { result ≡ false → ¬ (IsEarlier kind other) }
{
    last_phase(kind) < first_phase(other)
}
