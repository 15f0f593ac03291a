//! The laws, in functions without code of their own, whose contracts have them.
ghost use Rattle.hm_uses_cores.specs.Laws.{CoresHaveUses, CoresKeepMeanings, CoresKeepTypes};
ghost use Rattle.hm_uses_cores.specs.Worked.{EntityRow, ExpandedRow, InnerRow, OtherOrderRow, OuterRow};

use hm_uses::laws::found_uses;

/// At the place of each use of a variable or a constructor in the declarations of a module, the core of the module has its entity or its local
/// variable. The core has no other variables and constructors, and they are in the order of the text.
pub fn cores_and_uses()
    ensures each { CoresHaveUses }
    ensures all { CoresKeepMeanings }
{}

/// In the types of the core of a module, each type constructor is the entity that its use means, and a synonym is its right side.
pub fn types_of_cores()
    ensures { CoresKeepTypes }
{}

/// Worked cores. The variable of a lambda hides that of the clause around it, and a name of the module is its entity. A synonym takes its arguments in
/// the order of its parameters.
pub fn worked_cores()
    ensures inner { InnerRow }
    ensures outer { OuterRow }
    ensures entity { EntityRow }
    ensures expanded { ExpandedRow }
    ensures other_order { OtherOrderRow }
{
    found_uses();
}
