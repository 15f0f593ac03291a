//! Laws of sets of modules.

ghost use Rattle.hm_typing.specs.Laws.{Composes, Extends, GoodHasPrincipal, ImportsHavePrincipal};

/// Principal assignments compose along imports: that of a module's imports, extended by its own principal schemes, is principal.
pub fn principal_assignments_compose()
    ensures composes { Composes }
    ensures extends { Extends }
{}

/// In a lawful set, if the imports of a module are good, all that it imports has a principal assignment. So has the closure of a good module.
pub fn good_modules_have_principal_assignments()
    ensures imports { ImportsHavePrincipal }
    ensures closure { GoodHasPrincipal }
{}
