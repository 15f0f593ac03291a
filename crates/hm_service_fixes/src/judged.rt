//! What is known of the modules of a checked set.
ghost use Rattle.std.specs.Prelude.{◌≡◌, ◌<◌, IsTrue, Some, false, length, slice_get};
ghost use Rattle.hm_service_fixes.specs.Judged.{IsNamed};
ghost use Rattle.hm_service_fixes.specs.Steps.{IsAcceptedAs};
ghost use Rattle.hm_service_fixes.specs.Views.{judged_of, status_of};
ghost use Rattle.hm_verdicts.specs.Reports.{name_of_module};
ghost use Rattle.hm_verdicts.specs.Verdicts.{IsAccepted};

use hm_names::Fault;
use hm_store::Store;
use hm_syntax::Row;
use hm_types::Interface;
use hm_verdicts::Verdict;

/// A checked set, of which a source is changed.
#[derive(Clone, Copy)]
pub struct Judged<'a> {
    pub store: &'a Store,
    /// The number of each module's source.
    pub sources: &'a [usize],
    /// Whether the source that is changed is checked as it is now.
    pub is_checked: bool,
}

/// The verdict of a module.
#[derive(Clone, Copy)]
pub(crate) enum Settled<'a> {
    Published(&'a Interface),
    Failed(&'a Row<Fault>),
    Skipped,
}

/// Returns the number of modules.
pub(crate) fn count_of(judged: &Judged<'_>) -> usize
    ensures { result ≡ length (judged_of judged.now).set.modules }
{
    judged.store.modules().len()
}

/// Returns the name of a module.
pub(crate) fn name_of<'a>(judged: &Judged<'a>, number: usize) -> &'a str
    requires { number < length (judged_of judged.now).set.modules }
    ensures { result.now ≡ name_of_module (judged_of judged.now).set number }
{
    judged.store.modules()[number].header.name.as_str()
}

/// Returns whether a module is in a source.
pub(crate) fn is_in(judged: &Judged<'_>, number: usize, source: usize) -> bool
    ensures yes { IsTrue result → slice_get judged.now.sources.now number ≡ Some source }
    ensures no { result ≡ false → ¬ (slice_get judged.now.sources.now number ≡ Some source) }
{
    match judged.sources.get(number) {
        Some(own) => *own == source,
        None => false,
    }
}

/// Returns the verdict of a module.
pub(crate) fn settled_at<'a>(judged: &Judged<'a>, number: usize) -> Settled<'a>
    requires { number < length (judged_of judged.now).set.modules }
    ensures { status_of result ≡ (judged_of judged.now).status number }
{
    match judged.store.verdict(number) {
        Some(Verdict::Good(interface)) => Settled::Published(interface),
        Some(Verdict::Faulty(faults)) => Settled::Failed(faults),
        None => Settled::Skipped,
    }
}

/// Returns whether a module has a name.
pub(crate) fn is_named(judged: &Judged<'_>, number: usize, name: &str) -> bool
    requires { number < length (judged_of judged.now).set.modules }
    ensures yes { IsTrue result → IsNamed (judged_of judged.now) name.now number }
    ensures no { result ≡ false → ¬ (IsNamed (judged_of judged.now) name.now number) }
{
    name_of(judged, number) == name
}

/// Returns whether a module is accepted.
pub(crate) fn is_accepted(judged: &Judged<'_>, number: usize) -> bool
    requires { number < length (judged_of judged.now).set.modules }
    ensures yes { IsTrue result → IsAccepted (judged_of judged.now).set (judged_of judged.now).status number }
    ensures no { result ≡ false → ¬ (IsAccepted (judged_of judged.now).set (judged_of judged.now).status number) }
{
    match settled_at(judged, number) {
        Settled::Published(_) => true,
        Settled::Failed(_) => false,
        Settled::Skipped => false,
    }
}

/// Returns whether a module has a name and is accepted.
pub(crate) fn is_accepted_as(judged: &Judged<'_>, number: usize, name: &str) -> bool
    requires { number < length (judged_of judged.now).set.modules }
    ensures yes { IsTrue result → IsAcceptedAs (judged_of judged.now) name.now number }
    ensures no { result ≡ false → ¬ (IsAcceptedAs (judged_of judged.now) name.now number) }
{
    if !is_named(judged, number, name) {
        return false;
    }
    is_accepted(judged, number)
}
