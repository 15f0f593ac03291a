//! Whether a check has found an error in a source, and whether all modules of a source are good.
ghost use Rattle.std.specs.Prelude.{◌≡◌, All, Contains, IsTrue, false};
ghost use Rattle.std.specs.List.{Any};
ghost use Rattle.hm_service_stand_ins.specs.Findings.{HasError, IsErrorAt, IsGoodIn, findings_of};

use crate::said::Said;
use hm_service_messages::{Diagnostic, Level};
use hm_service_sources::HeldSource;

/// Returns whether a diagnostic is about the source with this number.
pub(crate) fn is_at(diagnostic: &Diagnostic, number: usize) -> bool
    ensures yes { IsTrue result → diagnostic.now.source ≡ number }
    ensures no { result ≡ false → ¬ (diagnostic.now.source ≡ number) }
{
    diagnostic.source == number
}

/// Returns whether a diagnostic is an error in the source with this number.
fn is_error_at(diagnostic: &Diagnostic, number: usize) -> bool
    ensures yes { IsTrue result → IsErrorAt number diagnostic.now }
    ensures no { result ≡ false → ¬ (IsErrorAt number diagnostic.now) }
{
    if !is_at(diagnostic, number) {
        return false;
    }
    match diagnostic.level {
        Level::Error => true,
        Level::Note => false,
    }
}

/// Returns whether one of these diagnostics is an error in the source with this number.
fn has_error_at(diagnostics: &[Diagnostic], number: usize) -> bool
    ensures yes { IsTrue result → Any (IsErrorAt number) diagnostics.now }
    ensures no { result ≡ false → ¬ (Any (IsErrorAt number) diagnostics.now) }
{
    'diagnostics: for diagnostic in diagnostics {
        if is_error_at(diagnostic, number) {
            return true;
        }
    }
    false
}

/// Returns whether a check has found an error in a source.
pub(crate) fn has_error(said: &Said<'_>, source: &HeldSource, number: usize) -> bool
    ensures yes { IsTrue result → HasError (findings_of said.now) source.now number }
    ensures no { result ≡ false → ¬ (HasError (findings_of said.now) source.now number) }
{
    if !source.is_read {
        return true;
    }
    if has_error_at(said.refused, number) {
        return true;
    }
    has_error_at(said.told, number)
}

/// Returns whether no diagnostic is about the source with this number.
fn is_silent(diagnostics: &[Diagnostic], number: usize) -> bool
    ensures yes { IsTrue result → All (λ d. ¬ (d.source ≡ number)) diagnostics.now }
    ensures no { result ≡ false → ¬ (All (λ d. ¬ (d.source ≡ number)) diagnostics.now) }
{
    'diagnostics: for diagnostic in diagnostics {
        if is_at(diagnostic, number) {
            return false;
        }
    }
    true
}

/// Returns whether a number is one of these.
pub(crate) fn is_among(numbers: &[usize], number: usize) -> bool
    ensures yes { IsTrue result → Contains numbers.now number }
    ensures no { result ≡ false → ¬ (Contains numbers.now number) }
{
    'numbers: for i in 0..numbers.len() {
        if numbers[i] == number {
            return true;
        }
    }
    false
}

/// Returns whether all modules of a source are good.
pub(crate) fn is_good(said: &Said<'_>, source: &HeldSource, number: usize) -> bool
    ensures yes { IsTrue result → IsGoodIn (findings_of said.now) source.now number }
    ensures no { result ≡ false → ¬ (IsGoodIn (findings_of said.now) source.now number) }
{
    if !source.is_read {
        return false;
    }
    if !is_among(said.part, number) {
        return false;
    }
    is_silent(said.told, number)
}
