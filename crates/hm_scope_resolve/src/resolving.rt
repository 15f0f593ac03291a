//! The walk over the trees of a module. It copies each tree with its names resolved, and collects the faults of names.
ghost use Rattle.std.specs.Prelude.{◌≡◌, ◌++◌, [], ◌∷◌, IfOk, OnOk, None};
ghost use Rattle.hm_names.specs.declared.namespace.Namespace.TheVariants.{Types, Constructors, Values};
ghost use Rattle.hm_syntax.specs.Trees.{variable_expression, constructor_expression};
ghost use Rattle.hm_names.specs.Faults.Phases.{fault};
ghost use Rattle.hm_names.specs.Found.{lookups_in, noting, entering, leaving, locals_of, stays, resolved_name, resolver_of, expression_faults, name_faults, type_name_faults, pattern_name_faults, other_arity, synonym_among};
ghost use Rattle.hm_names.specs.Special.{special_of};
ghost use Rattle.hm_names.specs.Types.{entity_of};
ghost use Rattle.hm_names.specs.Expansion.{expanded};
ghost use Rattle.hm_names.specs.Resolved.{expression_with};
ghost use Rattle.hm_syntax.specs.Lists.{types, patterns};
ghost use Rattle.hm_names.specs.Variables.{texts, type_count, pattern_count};

use crate::copies::{copy_name, entity_name, is_special, is_unqualified, special_arity};
use crate::expansion::{Room, filled};
use crate::locals::Locals;
use hm_names::{Fault, Kind, Namespace, fault_at};
use hm_scope_entities::Tables;
use hm_scope_tables::{Meaning, Scope};
use hm_syntax::{Expr, ExprKind, Name, Pat, TypeExpr, TypeKind};
use std::alloc::{AllocError, Global};
use std::marker::Model;

/// The state of the walk: the scope, the local names, and the faults so far.
#[derive(Drop)]
pub struct Resolving<'a> {
    scope: &'a Scope<'a>,
    tables: &'a Tables<'a>,
    locals: Locals,
    pub(crate) faults: Vec<Fault>,
}

impl<'a> Model for Resolving<'a> {
    ghost use Rattle.hm_names.specs.Found.{Walking};
    ghost use Rattle.std.specs.Coded.{codes};
    ghost use Rattle.hm_types.specs.Synonyms.{coded_synonym};

    ghost Value = { Walking };

    ghost coded = { Prim.hlevel (codes, coded_synonym) };

    ghost view = { λ r. record { known = record { pairs = r.scope.now; synonyms = r.tables.now.synonyms; types = r.tables.now.types; constructors = r.tables.now.constructors }; groups = r.locals; faults = r.faults.items } };
}

impl<'a> Resolving<'a> {
    /// Returns the state at the top of a module, without faults.
    pub fn new(alloc: Global, scope: &'a Scope<'a>, tables: &'a Tables<'a>) -> Resolving<'a>
        ensures { result ≡ record { known = lookups_in scope.now tables.now.synonyms tables.now.types tables.now.constructors; groups = []; faults = [] } }
    {
        Resolving {
            scope,
            tables,
            locals: Locals::new(alloc),
            faults: Vec::new(alloc),
        }
    }

    /// Returns the faults.
    pub(crate) fn into_faults(self) -> Vec<Fault>
        ensures { result.items ≡ self.entry.faults }
    {
        self.faults
    }
}

impl Resolving<'_> {
    /// Adds a fault at a name.
    pub(crate) fn note(&mut self, alloc: Global, kind: Kind, name: &Name) -> Result<(), AllocError>
        ensures { OnOk result (self.new ≡ noting (fault kind name.now ∷ []) self.old) }
    {
        self.faults.push(fault_at(alloc, kind, name)?)?;
        Ok(())
    }

    /// Resolves a name, and adds its fault if it has one.
    #[tactic(auto, unfolding(hm_names::specs::Found::resolved_name, hm_names::specs::Found::name_faults))]
    fn name(&mut self, alloc: Global, space: Namespace, name: &Name) -> Result<Name, AllocError>
        ensures name { IfOk result (λ n. n ≡ resolved_name self.old.known.pairs space (locals_of self.old) name.now) }
        ensures state { OnOk result (self.new ≡ noting (name_faults self.old.known.pairs space (locals_of self.old) name.now) self.old) }
    {
        if self.stays(space, name) {
            return Ok(copy_name(name)?);
        }
        match self.scope.meaning(space, name) {
            Meaning::Unbound => {
                self.note(alloc, Kind::Unbound, name)?;
                Ok(copy_name(name)?)
            }
            Meaning::Ambiguous => {
                self.note(alloc, Kind::Ambiguous, name)?;
                Ok(copy_name(name)?)
            }
            Meaning::Entity(entity) => Ok(entity_name(alloc, name, &entity)?),
        }
    }

    /// Resolves the name of a type constructor with `count` arguments, and adds its faults.
    #[tactic(auto, using(hm_names::proofs::Rows::noting_more, hm_names::proofs::Rows::types_counted), unfolding(hm_names::specs::Found::resolved_name, hm_names::specs::Found::name_faults, hm_names::specs::Found::type_name_faults))]
    pub(crate) fn type_name(
        &mut self,
        alloc: Global,
        name: &Name,
        args: &[TypeExpr],
    ) -> Result<Name, AllocError>
        ensures name { IfOk result (λ n. n ≡ resolved_name self.old.known.pairs Types [] name.now) }
        ensures state { OnOk result (self.new ≡ noting (type_name_faults self.old.known name.now (type_count (types args.now))) self.old) }
    {
        match self.scope.meaning(Namespace::Types, name) {
            Meaning::Unbound => {
                self.note(alloc, Kind::Unbound, name)?;
                Ok(copy_name(name)?)
            }
            Meaning::Ambiguous => {
                self.note(alloc, Kind::Ambiguous, name)?;
                Ok(copy_name(name)?)
            }
            Meaning::Entity(entity) => {
                let arity = self.tables.type_arity(&entity);
                self.arity(alloc, arity, name, args.len())?;
                Ok(entity_name(alloc, name, &entity)?)
            }
        }
    }

    /// Resolves the name of a constructor in a pattern with `count` arguments, and adds its faults.
    #[tactic(auto, using(hm_names::proofs::Rows::noting_more, hm_names::proofs::Rows::patterns_counted), unfolding(hm_names::specs::Found::resolved_name, hm_names::specs::Found::name_faults, hm_names::specs::Found::pattern_name_faults))]
    pub(crate) fn pattern_name(
        &mut self,
        alloc: Global,
        name: &Name,
        args: &[Pat],
    ) -> Result<Name, AllocError>
        ensures name { IfOk result (λ n. n ≡ resolved_name self.old.known.pairs Constructors [] name.now) }
        ensures state { OnOk result (self.new ≡ noting (pattern_name_faults self.old.known name.now (pattern_count (patterns args.now))) self.old) }
    {
        match special_arity(name) {
            Some(arity) => {
                self.arity(alloc, Some(arity), name, args.len())?;
                Ok(copy_name(name)?)
            }
            None => Ok(self.declared_name(alloc, name, args.len())?),
        }
    }

    /// Resolves the name of a constructor in a pattern with `count` arguments, unless it is special, and adds its faults.
    #[tactic(auto, unfolding(hm_names::specs::Found::resolved_name, hm_names::specs::Found::name_faults, hm_names::specs::Found::pattern_name_faults))]
    fn declared_name(
        &mut self,
        alloc: Global,
        name: &Name,
        count: usize,
    ) -> Result<Name, AllocError>
        requires { special_of name.now ≡ None }
        ensures name { IfOk result (λ n. n ≡ resolved_name self.old.known.pairs Constructors [] name.now) }
        ensures state { OnOk result (self.new ≡ noting (pattern_name_faults self.old.known name.now count) self.old) }
    {
        match self.scope.meaning(Namespace::Constructors, name) {
            Meaning::Unbound => {
                self.note(alloc, Kind::Unbound, name)?;
                Ok(copy_name(name)?)
            }
            Meaning::Ambiguous => {
                self.note(alloc, Kind::Ambiguous, name)?;
                Ok(copy_name(name)?)
            }
            Meaning::Entity(entity) => {
                let arity = self.tables.constructor_arity(&entity);
                self.arity(alloc, arity, name, count)?;
                Ok(entity_name(alloc, name, &entity)?)
            }
        }
    }

    /// Adds the fault of a name with another number of arguments than the known one.
    fn arity(
        &mut self,
        alloc: Global,
        arity: Option<usize>,
        name: &Name,
        count: usize,
    ) -> Result<(), AllocError>
        ensures { OnOk result (self.new ≡ noting (other_arity arity count name.now) self.old) }
    {
        match arity {
            None => Ok(()),
            Some(arity) => {
                if count == arity {
                    return Ok(());
                }
                Ok(self.note(alloc, Kind::Arity, name)?)
            }
        }
    }

    /// Returns a type constructor with its arguments or, for a synonym, the type that it stands for.
    pub(crate) fn constructed(
        &self,
        alloc: Global,
        name: Name,
        args: Vec<TypeExpr>,
    ) -> Result<TypeExpr, AllocError>
        ensures { IfOk result (λ t. t ≡ expanded (synonym_among self.now.known.synonyms (entity_of name)) name (types args.items)) }
    {
        match self.tables.synonym(&name) {
            None => Ok(TypeExpr {
                kind: TypeKind::Con(name, args),
            }),
            Some(synonym) => {
                let room = Room {
                    levels: self.tables.levels(),
                    nodes: self.tables.nodes(),
                };
                Ok(filled(alloc, room, &name, &args, synonym.body())?)
            }
        }
    }

    /// Returns the number of nodes that types for synonyms may still have.
    pub(crate) fn nodes_left(&self) -> usize {
        self.tables.nodes().get()
    }

    /// Counts again the nodes that were made since `before` nodes were left: once for each name after the first of `count` names with one type.
    pub(crate) fn count_again(&self, before: usize, count: usize) -> Result<(), AllocError> {
        let left = self.nodes_left();
        let made = before.saturating_sub(left);
        let more = made.saturating_mul(count.saturating_sub(1));
        if more > left {
            return Err(AllocError);
        }
        self.tables.nodes().set(left - more);
        Ok(())
    }

    /// Resolves a variable in an expression.
    pub(crate) fn variable(&mut self, alloc: Global, name: &Name) -> Result<Expr, AllocError>
        ensures tree { IfOk result (λ e. e ≡ expression_with (resolver_of self.old.known) (locals_of self.old) (variable_expression name.now)) }
        ensures state { OnOk result (self.new ≡ noting (expression_faults self.old.known (locals_of self.old) (variable_expression name.now)) self.old) }
    {
        let name = self.name(alloc, Namespace::Values, name)?;
        Ok(Expr {
            kind: ExprKind::Var(name),
        })
    }

    /// Resolves a constructor in an expression.
    #[tactic(auto, unfolding(hm_names::specs::Found::resolved_name, hm_names::specs::Found::name_faults))]
    pub(crate) fn constructor(&mut self, alloc: Global, name: &Name) -> Result<Expr, AllocError>
        ensures tree { IfOk result (λ e. e ≡ expression_with (resolver_of self.old.known) (locals_of self.old) (constructor_expression name.now)) }
        ensures state { OnOk result (self.new ≡ noting (expression_faults self.old.known (locals_of self.old) (constructor_expression name.now)) self.old) }
    {
        let name = self.name(alloc, Namespace::Constructors, name)?;
        Ok(Expr {
            kind: ExprKind::Con(name),
        })
    }

    /// Returns whether a name stays as it is: it is local, or that of a special constructor.
    fn stays(&self, space: Namespace, name: &Name) -> bool
        ensures { result ≡ stays (locals_of self.now) space name.now }
    {
        match space {
            Namespace::Types => false,
            Namespace::Constructors => is_special(name),
            Namespace::Values => is_unqualified(name) && self.locals.contains(name.as_str()),
        }
    }

    /// Enters the scope of these names.
    pub(crate) fn enter(&mut self, names: Vec<Name>) -> Result<(), AllocError>
        ensures { OnOk result (self.new ≡ entering (texts names.items) self.old) }
    {
        self.locals.enter(names)
    }

    /// Leaves the scope of the last `enter`.
    pub(crate) fn leave(&mut self)
        ensures { self.new ≡ leaving self.old }
    {
        self.locals.leave();
    }
}
