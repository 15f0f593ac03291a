//! The state of the walk over a module, and the use of a single name.
ghost use Rattle.std.specs.Prelude.{◌≡◌, ◌∷◌, ◌++◌, [], true, false, cond, OnOk, IfOk};
ghost use Rattle.hm_names.specs.Found.{is_special};
ghost use Rattle.hm_syntax.specs.Lists.{declarations, patterns};
ghost use Rattle.hm_names.specs.Variables.{bound_names, patterns_variables, pattern_variables};
ghost use Rattle.hm_names.specs.declared.namespace.Namespace.TheVariants.{Types};
ghost use Rattle.hm_uses.specs.declared.name_kind.NameKind.TheVariants.{Variable, Constructor, TypeVariable, TypeConstructor};
ghost use Rattle.hm_uses.specs.Found.{scope_sense, variable_sense, binder_sense, parameter_sense, use_as, constructor_use, binder_use, own_use};
ghost use Rattle.hm_uses_declarations.specs.Senses.{sense_of};
ghost use Rattle.hm_uses_declarations.specs.Walking.{all_of, innermost, home_of, adding, entering, leaving};

use crate::locals::Locals;
use crate::uses::{Meaning, Use};
use hm_names::{LentNames, Namespace, add_all_bound, add_pattern, add_patterns, tuple_arity};
use hm_scope_tables::{EntityRef, Meaning as ScopeMeaning, Scope, TextSet};
use hm_syntax::{Decl, Name, Pat};
use hm_types::Text;
use hm_uses::NameKind;
use std::alloc::{AllocError, Global};
use std::marker::Model;

/// The state of the walk: what is known of the module, the binders around, and the uses so far.
#[derive(Drop)]
pub(crate) struct Walk<'s, 'a> {
    home: &'a Text,
    top: &'s TextSet<'a>,
    scope: &'s Scope<'a>,
    locals: Locals<'a>,
    found: Vec<Use<'a>>,
}

impl<'s, 'a> Model for Walk<'s, 'a> {
    ghost use Rattle.hm_uses_declarations.specs.Walking.{Walking};

    ghost Value = { Walking };

    ghost view = { λ w. record { known = record { home = w.home.now; top = w.top.now; pairs = w.scope.now }; groups = w.locals; found = w.found.items } };
}

/// Returns whether a name is that of a special constructor, as `()` or `:`.
pub(crate) fn is_special(name: &Name) -> bool
    ensures { result ≡ is_special name.now }
{
    if name.qualifier.is_some() {
        return false;
    }
    let text = name.as_str();
    if text == "()" || text == "[]" {
        return true;
    }
    if text == ":" {
        return true;
    }
    tuple_arity(text.as_bytes()).is_some()
}

/// Returns the meaning of a type variable, which one of these binds.
#[tactic(auto, using(crate::proofs::Meant::is_parameter, crate::proofs::Meant::isnt_parameter))]
fn of_parameter<'a>(binders: &Locals<'a>, name: &Name) -> Meaning<'a>
    ensures { sense_of result ≡ parameter_sense name.now.text (innermost binders.now) }
{
    match binders.place_in_list(name.as_str()) {
        Some(place) => Meaning::TypeVariable(place),
        None => Meaning::Unbound,
    }
}

impl<'s, 'a> Walk<'s, 'a> {
    /// Returns the state at the top of a module, without uses.
    pub(crate) fn new(
        alloc: Global,
        home: &'a Text,
        top: &'s TextSet<'a>,
        scope: &'s Scope<'a>,
    ) -> Walk<'s, 'a>
        ensures { result ≡ record { known = record { home = home.now; top = top.now; pairs = scope.now }; groups = []; found = [] } }
    {
        Walk {
            home,
            top,
            scope,
            locals: Locals::new(alloc),
            found: Vec::new(alloc),
        }
    }

    /// Returns the uses.
    pub(crate) fn into_found(self) -> Vec<Use<'a>>
        ensures { result.items ≡ self.entry.found }
    {
        self.found
    }

    /// Adds a use.
    fn add(
        &mut self,
        name: &'a Name,
        kind: NameKind,
        binds: bool,
        meaning: Meaning<'a>,
    ) -> Result<(), AllocError>
        ensures { OnOk result (self.new ≡ adding (use_as kind binds name.now (sense_of meaning.entry)) self.old) }
    {
        self.found.push(Use::new(name, kind, binds, meaning))?;
        Ok(())
    }

    /// Returns the meaning of a name by the scope of the module.
    fn by_scope(&self, space: Namespace, name: &Name) -> Meaning<'a>
        ensures { sense_of result ≡ scope_sense self.now.known space name.now }
    {
        match self.scope.meaning(space, name) {
            ScopeMeaning::Unbound => Meaning::Unbound,
            ScopeMeaning::Ambiguous => Meaning::Ambiguous,
            ScopeMeaning::Entity(entity) => Meaning::Entity(entity),
        }
    }

    /// Returns the meaning of a variable in an expression.
    #[tactic(auto, using(crate::proofs::Meant::innermost_one, crate::proofs::Meant::no_local_one, crate::proofs::Meant::qualified_one))]
    fn of_variable(&self, name: &Name) -> Meaning<'a>
        ensures { sense_of result ≡ variable_sense self.now.known (all_of self.now.groups) name.now }
    {
        if name.qualifier.is_some() {
            return self.by_scope(Namespace::Values, name);
        }
        match self.locals.place_of(name.as_str()) {
            Some(place) => Meaning::Local(place),
            None => self.by_scope(Namespace::Values, name),
        }
    }

    /// Adds a variable of an expression.
    pub(crate) fn variable(&mut self, name: &'a Name) -> Result<(), AllocError>
        ensures { OnOk result (self.new ≡ adding (use_as Variable false name.now (variable_sense self.old.known (all_of self.old.groups) name.now)) self.old) }
    {
        let meaning = self.of_variable(name);
        Ok(self.add(name, NameKind::Variable, false, meaning)?)
    }

    /// Adds a constructor, unless it is special.
    pub(crate) fn constructor(&mut self, name: &'a Name) -> Result<(), AllocError>
        ensures { OnOk result (self.new ≡ adding (constructor_use self.old.known name.now) self.old) }
    {
        if is_special(name) {
            return Ok(());
        }
        let meaning = self.by_scope(Namespace::Constructors, name);
        Ok(self.add(name, NameKind::Constructor, false, meaning)?)
    }

    /// Adds a type constructor.
    pub(crate) fn type_constructor(&mut self, name: &'a Name) -> Result<(), AllocError>
        ensures { OnOk result (self.new ≡ adding (use_as TypeConstructor false name.now (scope_sense self.old.known Types name.now)) self.old) }
    {
        let meaning = self.by_scope(Namespace::Types, name);
        Ok(self.add(name, NameKind::TypeConstructor, false, meaning)?)
    }

    /// Adds a type or a constructor that the module declares.
    pub(crate) fn own(&mut self, name: &'a Name, kind: NameKind) -> Result<(), AllocError>
        ensures { OnOk result (self.new ≡ adding (own_use self.old.known kind name.now) self.old) }
    {
        let meaning = Meaning::Entity(EntityRef::new(self.home, name.as_text()));
        Ok(self.add(name, kind, true, meaning)?)
    }

    /// Returns what a variable means where its list binds or signs it.
    #[tactic(auto, using(crate::proofs::Meant::own_binder, crate::proofs::Meant::no_own_binder, crate::proofs::Meant::local_binder, crate::proofs::Meant::no_binder))]
    fn of_binder(&self, name: &'a Name) -> Meaning<'a>
        ensures { sense_of result ≡ binder_sense self.now.known name.now.text (home_of self.now.groups) }
    {
        if self.locals.len() == 0 {
            if self.top.contains(name.as_str()) {
                return Meaning::Entity(EntityRef::new(self.home, name.as_text()));
            }
            return Meaning::Unbound;
        }
        match self.locals.place_in_list(name.as_str()) {
            Some(place) => Meaning::Local(place),
            None => Meaning::Unbound,
        }
    }

    /// Adds a variable that its list binds or signs.
    pub(crate) fn binder(&mut self, name: &'a Name, binds: bool) -> Result<(), AllocError>
        ensures { OnOk result (self.new ≡ adding (binder_use self.old.known (home_of self.old.groups) binds name.now) self.old) }
    {
        let meaning = self.of_binder(name);
        Ok(self.add(name, NameKind::Variable, binds, meaning)?)
    }

    /// Adds a type variable, which one of these binds.
    pub(crate) fn type_variable(
        &mut self,
        binders: &Locals<'a>,
        name: &'a Name,
        binds: bool,
    ) -> Result<(), AllocError>
        ensures { OnOk result (self.new ≡ adding (use_as TypeVariable binds name.now (parameter_sense name.now.text (innermost binders.now))) self.old) }
    {
        let meaning = of_parameter(binders, name);
        Ok(self.add(name, NameKind::TypeVariable, binds, meaning)?)
    }

    /// Enters the scope of the variables of a declaration list.
    pub(crate) fn enter_list(&mut self, alloc: Global, decls: &'a [Decl]) -> Result<(), AllocError>
        ensures { OnOk result (self.new ≡ entering (bound_names (declarations decls.now)) self.old) }
    {
        let mut names = LentNames::new(alloc);
        add_all_bound(&mut names, decls)?;
        Ok(self.locals.enter(names)?)
    }

    /// Enters the scope of the variables of a clause or a lambda.
    pub(crate) fn enter_patterns(
        &mut self,
        alloc: Global,
        pats: &'a [Pat],
    ) -> Result<(), AllocError>
        ensures { OnOk result (self.new ≡ entering (patterns_variables (patterns pats.now)) self.old) }
    {
        let mut names = LentNames::new(alloc);
        add_patterns(&mut names, pats)?;
        Ok(self.locals.enter(names)?)
    }

    /// Enters the scope of the variables of an alternative.
    pub(crate) fn enter_pattern(&mut self, alloc: Global, pat: &'a Pat) -> Result<(), AllocError>
        ensures { OnOk result (self.new ≡ entering (pattern_variables pat.now) self.old) }
    {
        let mut names = LentNames::new(alloc);
        add_pattern(&mut names, pat)?;
        Ok(self.locals.enter(names)?)
    }

    /// Leaves the innermost scope.
    pub(crate) fn leave(&mut self)
        ensures { self.new ≡ leaving self.old }
    {
        self.locals.leave();
    }
}
