//! Faults by phase.

ghost use Rattle.std.specs.Prelude.{◌≡◌, ◌++◌, ◌∷◌, [], IfOk, OnOk, filter};
ghost use Rattle.hm_scope.specs.PhaseAnswers.{is_of_lists, is_of_names, is_of_numbers};

use hm_names::{Fault, Kind};
use std::alloc::{AllocError, Global};

/// The faults of a module's trees: of declaration lists, of names, and of numbers of arguments.
#[derive(Drop)]
pub struct TreeFaults {
    pub lists: Vec<Fault>,
    pub names: Vec<Fault>,
    pub numbers: Vec<Fault>,
}

/// Adds a fault to those of its phase.
fn add_fault(parts: &mut TreeFaults, fault: Fault) -> Result<(), AllocError>
    ensures lists { OnOk result (parts.new.lists.items ≡ parts.old.lists.items ++ filter is_of_lists (fault ∷ [])) }
    ensures names { OnOk result (parts.new.names.items ≡ parts.old.names.items ++ filter is_of_names (fault ∷ [])) }
    ensures numbers { OnOk result (parts.new.numbers.items ≡ parts.old.numbers.items ++ filter is_of_numbers (fault ∷ [])) }
{
    match fault.kind {
        Kind::Duplicate => parts.lists.push(fault)?,
        Kind::NoBinding => parts.lists.push(fault)?,
        Kind::Unbound => parts.names.push(fault)?,
        Kind::Ambiguous => parts.names.push(fault)?,
        Kind::NonLinear => parts.names.push(fault)?,
        Kind::Arity => parts.numbers.push(fault)?,
        Kind::ClauseLength => parts.numbers.push(fault)?,
        Kind::NotExported => {}
        Kind::ExportClash => {}
        Kind::NotImported => {}
        Kind::Untyped => {}
        Kind::Recursive => {}
    }
    Ok(())
}

/// Sorts the faults of a walk over a module's trees by phase, and adds those of recursive synonyms.
pub fn by_phases(
    alloc: Global,
    faults: Vec<Fault>,
    recursive: Vec<Fault>,
) -> Result<TreeFaults, AllocError>
    ensures lists { IfOk result (λ parts. parts.lists.items ≡ filter is_of_lists faults.items) }
    ensures names { IfOk result (λ parts. parts.names.items ≡ filter is_of_names faults.items) }
    ensures numbers { IfOk result (λ parts. parts.numbers.items ≡ recursive.items ++ filter is_of_numbers faults.items) }
{
    let mut parts = TreeFaults {
        lists: Vec::new(alloc),
        names: Vec::new(alloc),
        numbers: recursive,
    };
    for fault in faults {
        add_fault(&mut parts, fault)?;
    }
    Ok(parts)
}
