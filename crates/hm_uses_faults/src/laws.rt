//! Laws, in functions with an empty body, whose contracts have them.
ghost use Rattle.hm_uses_faults.specs.Headers.{HeaderFaults};
ghost use Rattle.hm_uses_faults.specs.Laws.{NameFaultsAreUses, UsesAreNameFaults};
ghost use Rattle.hm_uses_faults.specs.Worked.{
  ConstructorRow,
  ExportedRow,
  HiddenRow,
  MissingRow,
  TypeRow,
};

/// An unbound or ambiguous name of the declarations of a module is a use that says so. A use that says so is such a fault, unless it is in a
/// signature.
pub fn name_faults_and_uses()
    ensures faults { NameFaultsAreUses }
    ensures uses { UsesAreNameFaults }
{}

/// A name of the header of a module is a fault exactly if its use says so. Names after `hiding` have no such faults, nor have the constructors of a
/// type that has a fault itself.
pub fn header_faults_and_uses()
    ensures { HeaderFaults }
{}

/// Worked headers. A name of an import list that isn't exported is a fault, and one that is exported isn't. A name after `hiding` is no fault. Neither is
/// a constructor in an export list after a type that is one.
pub fn worked_headers()
    ensures missing { MissingRow }
    ensures exported { ExportedRow }
    ensures hidden { HiddenRow }
    ensures of_type { TypeRow }
    ensures constructor { ConstructorRow }
{}
