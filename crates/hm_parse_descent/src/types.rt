//! Types (Haskell 98 Report, section 4.1.2).
ghost use Rattle.hm_parse_grammar.specs.Reading.Types.{type_in, atype_with, atypes_with, btype_with, type_at};
ghost use Rattle.hm_parse_grammar.specs.Reading.Answers.{Gives};

use crate::cursor::Parser;
use crate::owned::{boxed, first_of_two};
use hm_parse_grammar::{ParseFault, Symbol};
use hm_syntax::{TypeExpr, TypeKind};
use std::alloc::Global;

/// The largest number of components of a tuple.
pub(crate) const MAX_COMPONENTS: usize = 15;

impl Parser<'_> {
    #[cycle(type_exprs)]
    #[tactic(auto, using(crate::proofs::TypeLoops::type_is, crate::proofs::TypeLoops::btype_shorter, crate::proofs::TypeLoops::tail_length), unfolding(hm_parse_grammar::specs::Reading::Types::type_step))]
    pub(crate) fn type_expr(&mut self, alloc: Global) -> Result<TypeExpr, ParseFault>
        ensures { Gives (λ t. (t, self.new)) result (type_at self.old) }
    {
        let left = self.btype(alloc)?;
        if !self.at(Symbol::Arrow) {
            return Ok(left);
        }
        let left = boxed(alloc, left)?;
        self.skip();
        let right = self.type_expr(alloc)?;
        let right = boxed(alloc, right)?;
        Ok(TypeExpr {
            kind: TypeKind::Arrow(left, right),
        })
    }

    #[cycle(type_exprs)]
    #[tactic(auto, using(crate::proofs::TypeLoops::name_shorter), unfolding(hm_parse_grammar::specs::Reading::Types::btype_with))]
    pub(crate) fn btype(&mut self, alloc: Global) -> Result<TypeExpr, ParseFault>
        ensures { Gives (λ t. (t, self.new)) result (btype_with type_at self.old) }
    {
        if !self.symbol().is_qcon() {
            return self.atype(alloc);
        }
        let name = self.name(alloc)?;
        let args = or_drop!(self.atypes(alloc), name);
        Ok(TypeExpr {
            kind: TypeKind::Con(name, args),
        })
    }

    /// Reads types that need no parentheses, up to another token.
    #[cycle(type_exprs)]
    #[tactic(auto, using(crate::proofs::TypeLoops::atypes_go_on, crate::proofs::TypeLoops::atypes_end, crate::proofs::TypeLoops::atypes_fail, crate::proofs::TypeLoops::atypes_start, crate::proofs::TypeLoops::atypes_shorter), unfolding(hm_parse_grammar::specs::Reading::Types::atypes_with))]
    pub(crate) fn atypes(&mut self, alloc: Global) -> Result<Vec<TypeExpr>, ParseFault>
        ensures { Gives (λ v. (v.items, self.new)) result (atypes_with type_at self.old) }
    {
        let mut found = Vec::new(alloc);
        'atypes: while self.symbol().begins_atype() {
            found.push(self.atype(alloc)?)?;
        }
        Ok(found)
    }

    #[cycle(type_exprs)]
    #[tactic(auto, using(crate::proofs::Loops::open_shorter, crate::proofs::TypeLoops::square_shorter), unfolding(hm_parse_grammar::specs::Reading::Types::atype_with))]
    pub(crate) fn atype(&mut self, alloc: Global) -> Result<TypeExpr, ParseFault>
        ensures { Gives (λ t. (t, self.new)) result (atype_with type_at self.old) }
    {
        match self.symbol() {
            Symbol::Var => {
                let name = self.name(alloc)?;
                Ok(TypeExpr {
                    kind: TypeKind::Var(name),
                })
            }
            Symbol::Con | Symbol::QCon => {
                let name = self.name(alloc)?;
                Ok(TypeExpr {
                    kind: TypeKind::Con(name, Vec::new(alloc)),
                })
            }
            Symbol::Open => {
                self.skip();
                self.type_in(alloc)
            }
            Symbol::OpenSquare => {
                self.skip();
                let element = self.type_expr(alloc)?;
                let element = self.before(element, Symbol::CloseSquare)?;
                let element = boxed(alloc, element)?;
                Ok(TypeExpr {
                    kind: TypeKind::List(element),
                })
            }
            _ => Err(ParseFault::Syntax(self.place())),
        }
    }

    /// Reads a type, a tuple or nothing after `(`. A comma after the last allowed component is a fault.
    #[cycle(type_exprs)]
    #[tactic(auto, using(crate::proofs::TypeLoops::comma_shorter, crate::proofs::TypeLoops::type_shorter, crate::proofs::TypeLoops::unit_is, crate::proofs::TypeLoops::no_type, crate::proofs::TypeLoops::alone, crate::proofs::TypeLoops::alone_open, crate::proofs::TypeLoops::components_start, crate::proofs::TypeLoops::components_go_on, crate::proofs::TypeLoops::components_end, crate::proofs::TypeLoops::components_open, crate::proofs::TypeLoops::components_fail, crate::proofs::TypeLoops::components_many))]
    fn type_in(&mut self, alloc: Global) -> Result<TypeExpr, ParseFault>
        ensures { Gives (λ t. (t, self.new)) result (type_in type_at self.old) }
    {
        if self.at(Symbol::Close) {
            self.skip();
            return Ok(TypeExpr {
                kind: TypeKind::Unit,
            });
        }
        let first = self.type_expr(alloc)?;
        if !self.at(Symbol::Comma) {
            return Ok(self.before(first, Symbol::Close)?);
        }
        let mut found = first_of_two(alloc, first)?;
        'components: while self.at(Symbol::Comma) {
            if found.len() == MAX_COMPONENTS {
                return Err(ParseFault::Syntax(self.place()));
            }
            self.skip();
            found.push(self.type_expr(alloc)?)?;
        }
        self.expect(Symbol::Close)?;
        Ok(TypeExpr {
            kind: TypeKind::Tuple(found),
        })
    }
}
