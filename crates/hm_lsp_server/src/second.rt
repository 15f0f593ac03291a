//! The second check: that of the last good texts of sources in which the first check has found an error.
ghost use Rattle.std.specs.Prelude.{◌≡◌, IfOk, OnErr, map, option_map};
ghost use Rattle.hm_service.specs.Checks.{IsHeldCheck};
ghost use Rattle.hm_service_places.specs.Diagnostics.{in_run};
ghost use Rattle.hm_service_stand_ins.specs.Findings.{findings_of};
ghost use Rattle.hm_service_stand_ins.specs.StandIns.{MissesSome};
ghost use Rattle.hm_lsp_server.specs.Second.{IsSecondCheck, findings_in, workers};

use hm_service::{Checked, Diagnostic, HeldSource, ServiceFault, Told, check};
use hm_service_stand_ins::{Said, second_set};
use std::alloc::{AllocError, Global};
use std::sync::Wait;
use std::thread::Threads;

/// How many workers check the sources.
pub(crate) const WORKERS: usize = 4;

/// A second check, and the held set that it is of.
#[derive(Drop)]
pub(crate) struct SecondCheck {
    pub set: Vec<HeldSource>,
    pub checked: Checked,
}

/// The first check of texts, and the checks of before, if there were some.
#[derive(Clone, Copy)]
pub(crate) struct Checks<'a> {
    pub first: &'a Checked,
    /// The check of the texts before these.
    pub last: Option<&'a Checked>,
    /// The last second check.
    pub second: Option<&'a Checked>,
}

/// Returns the check of a second check, if there was one.
pub(crate) fn checked_in(second: Option<SecondCheck>) -> Option<Checked> {
    match second {
        Some(again) => {
            let SecondCheck { set: _set, checked } = again;
            Some(checked)
        }
        None => None,
    }
}

/// Appends a check.
fn add<'a>(checks: &mut Vec<&'a Checked>, checked: &'a Checked) -> Result<(), AllocError> {
    checks.push(checked)?;
    Ok(())
}

/// Checks a held set. What hasn't changed since earlier checks is taken from them, where there were some.
pub(crate) fn check_after<T: Threads + Wait + Sync>(
    rt: &T,
    alloc: Global,
    held: &[HeldSource],
    earlier: &[Option<&Checked>],
) -> Result<Checked, ServiceFault>
    ensures { IfOk result (IsHeldCheck workers held.now) }
{
    let mut checks = Vec::new(alloc);
    'checks: for one in earlier {
        if let Some(checked) = *one {
            add(&mut checks, checked)?;
        }
    }
    let checked = check(rt, alloc, held, checks.as_slice(), WORKERS)?;
    Ok(checked)
}

/// Returns the diagnostics of a run, if there was one.
fn in_run<'a>(run: &'a Option<Told>) -> &'a [Diagnostic]
    ensures { result.now ≡ in_run run.entry.now }
{
    match run {
        Some(told) => told.diagnostics.as_slice(),
        None => &[],
    }
}

/// Returns what a check says of the sources.
pub(crate) fn said_by<'a>(checked: &'a Checked) -> Said<'a>
    ensures { findings_of result ≡ findings_in checked.entry.now }
{
    Said {
        part: checked.part.as_slice(),
        refused: in_run(&checked.refused),
        told: checked.told.diagnostics.as_slice(),
    }
}

// Why: docs/DECISIONS.md, "A second check".
/// Makes the second check after a first one of a held set, if one is made. `good` has the last good text of each source.
pub(crate) fn check_again<T: Threads + Wait + Sync>(
    rt: &T,
    alloc: Global,
    held: &[HeldSource],
    checks: &Checks<'_>,
    good: &[Option<Vec<u8>>],
) -> Result<Option<SecondCheck>, ServiceFault>
    ensures err { OnErr result (MissesSome (findings_in checks.now.first.now) held.now) }
    ensures second { IfOk result (IsSecondCheck held.now checks.now.first.now (map (option_map (λ t. t.items)) good.now)) }
{
    let said = said_by(checks.first);
    let made = second_set(alloc, &said, held, good)?;
    let Some(set) = made else {
        return Ok(None);
    };
    let earlier = [Some(checks.first), checks.last, checks.second];
    let again = check_after(rt, alloc, set.as_slice(), &earlier)?;
    Ok(Some(SecondCheck {
        set,
        checked: again,
    }))
}
