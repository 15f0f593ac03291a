//! The order of faults: by place, then kind, then name.

ghost use Rattle.std.specs.Prelude.{◌≡◌, ◌↔◌, IfOk, Contains};
ghost use Rattle.std.proofs.Common.{rules};
ghost use Rattle.std.specs.Cmp.{partial_order_from_total, partial_equiv_from_equiv};
ghost use Rattle.std.specs.Cmp.Rules.{comparing};
ghost use Rattle.std.specs.Ordering.{as_partial_cmp, eq_by_cmp};
ghost use Rattle.hm_names.specs.FaultOrder.{fault_cmp, fault_total, same_faults};
ghost use Rattle.hm_names.specs.Faults.Phases.{AreOrdered, kind_number};
ghost use Rattle.hm_names.specs.declared.faults.Fault.{Fault};

use crate::faults::{Fault, Kind};
use std::alloc::AllocError;
use std::cmp::Ordering;

impl Kind {
    /// Returns the number of the kind.
    pub(crate) fn number(self) -> usize
        ensures { result ≡ kind_number self }
    {
        match self {
            Kind::NotExported => 1,
            Kind::Duplicate => 2,
            Kind::NoBinding => 3,
            Kind::Unbound => 4,
            Kind::Ambiguous => 5,
            Kind::ExportClash => 6,
            Kind::NotImported => 7,
            Kind::NonLinear => 8,
            Kind::Arity => 9,
            Kind::ClauseLength => 10,
            Kind::Untyped => 11,
            Kind::Recursive => 12,
        }
    }
}

impl PartialEq for Fault {
    ghost eq = { eq_by_cmp fault_cmp };

    ghost laws = { partial_equiv_from_equiv same_faults };

    fn eq(&self, other: &Fault) -> bool {
        self.cmp(other) == Ordering::Equal
    }
}

impl Eq for Fault {
    ghost laws = { same_faults };
}

impl PartialOrd for Fault {
    ghost partial_cmp = { as_partial_cmp fault_cmp };

    ghost laws = { partial_order_from_total fault_total };

    fn partial_cmp(&self, other: &Fault) -> Option<Ordering> {
        Some(self.cmp(other))
    }
}

impl Ord for Fault {
    ghost cmp = { fault_cmp };

    ghost total = { fault_total };

    ghost matches_partial_cmp = { Prim.search (comparing, rules) };

    ghost matches_eq = { Prim.search (comparing, rules) };

    fn cmp(&self, other: &Fault) -> Ordering {
        let by_name = self.name.as_str().cmp(other.name.as_str());
        let by_kind = self.kind.number().cmp(&other.kind.number()).then(by_name);
        let by_column = self.place.column.cmp(&other.place.column).then(by_kind);
        self.place.line.cmp(&other.place.line).then(by_column)
    }
}

/// Returns the faults in order, each once.
pub fn sort_faults(faults: Vec<Fault>) -> Result<Vec<Fault>, AllocError>
    ensures ordered { IfOk result (λ sorted. AreOrdered sorted.items) }
    ensures same { IfOk result (λ sorted. (f : Fault) → Contains sorted.items f ↔ Contains faults.items f) }
{
    let mut sorted = faults;
    sorted.sort()?;
    sorted.dedup();
    Ok(sorted)
}
