//! Declarations of types (Haskell 98 Report, section 4.2).
ghost use Rattle.hm_parse_grammar.specs.Reading.Basics.{loop};
ghost use Rattle.hm_parse_grammar.specs.Reading.TypeDeclarations.{next_tyvar, constr_at, constrs_at, data_in, newtype_in, synonym_in};
ghost use Rattle.hm_parse_grammar.specs.Reading.Answers.{Gives};

use crate::cursor::Parser;
use crate::owned::only;
use hm_parse_grammar::{ParseFault, Symbol};
use hm_syntax::{Constr, Decl, DeclKind, Name};
use std::alloc::Global;

impl Parser<'_> {
    /// Reads the parameters of a type.
    #[tactic(auto, using(crate::proofs::TypeDeclarationLoops::tyvars_go_on, crate::proofs::TypeDeclarationLoops::tyvars_end, crate::proofs::TypeDeclarationLoops::tyvars_fail, crate::proofs::TypeDeclarationLoops::tyvars_start, crate::proofs::TypeDeclarationLoops::tyvars_shorter))]
    fn tyvars(&mut self, alloc: Global) -> Result<Vec<Name>, ParseFault>
        ensures { Gives (λ v. (v.items, self.new)) result (loop next_tyvar self.old) }
    {
        let mut found = Vec::new(alloc);
        'tyvars: while self.at(Symbol::Var) {
            found.push(self.name(alloc)?)?;
        }
        Ok(found)
    }

    /// Reads a constructor with the types of its arguments.
    #[tactic(auto, unfolding(hm_parse_grammar::specs::Reading::TypeDeclarations::constr_at))]
    fn constr(&mut self, alloc: Global) -> Result<Constr, ParseFault>
        ensures { Gives (λ c. (c, self.new)) result (constr_at self.old) }
    {
        let name = self.con(alloc)?;
        let args = or_drop!(self.atypes(alloc), name);
        Ok(Constr { name, args })
    }

    /// Reads constructors with bars between them, at least one.
    #[tactic(auto, using(crate::proofs::TypeDeclarationLoops::constrs_go_on, crate::proofs::TypeDeclarationLoops::constrs_end, crate::proofs::TypeDeclarationLoops::constrs_fail, crate::proofs::TypeDeclarationLoops::constrs_shorter), unfolding(hm_parse_grammar::specs::Reading::TypeDeclarations::constrs_at))]
    fn constrs(&mut self, alloc: Global) -> Result<Vec<Constr>, ParseFault>
        ensures { Gives (λ v. (v.items, self.new)) result (constrs_at self.old) }
    {
        let first = self.constr(alloc)?;
        let mut found = only(alloc, first)?;
        'constrs: while self.at(Symbol::Bar) {
            self.skip();
            found.push(self.constr(alloc)?)?;
        }
        Ok(found)
    }

    /// Reads a `data` declaration after that word.
    #[tactic(auto, unfolding(hm_parse_grammar::specs::Reading::TypeDeclarations::data_in))]
    pub(crate) fn data(&mut self, alloc: Global) -> Result<Decl, ParseFault>
        ensures { Gives (λ d. (d, self.new)) result (data_in self.old) }
    {
        let name = self.con(alloc)?;
        let params = or_drop!(self.tyvars(alloc), name);
        or_drop!(self.expect(Symbol::Equals), name, params);
        let constrs = or_drop!(self.constrs(alloc), name, params);
        Ok(Decl {
            kind: DeclKind::DataType {
                name,
                params,
                constrs,
            },
        })
    }

    /// Reads a `newtype` declaration after that word.
    #[tactic(auto, unfolding(hm_parse_grammar::specs::Reading::TypeDeclarations::newtype_in))]
    pub(crate) fn newtype(&mut self, alloc: Global) -> Result<Decl, ParseFault>
        ensures { Gives (λ d. (d, self.new)) result (newtype_in self.old) }
    {
        let name = self.con(alloc)?;
        let params = or_drop!(self.tyvars(alloc), name);
        or_drop!(self.expect(Symbol::Equals), name, params);
        let constr_name = or_drop!(self.con(alloc), name, params);
        let arg = or_drop!(self.atype(alloc), name, params, constr_name);
        let args = only(alloc, arg)?;
        let constr = Constr {
            name: constr_name,
            args,
        };
        Ok(Decl {
            kind: DeclKind::Newtype {
                name,
                params,
                constr,
            },
        })
    }

    /// Reads a `type` declaration after that word.
    #[tactic(auto, unfolding(hm_parse_grammar::specs::Reading::TypeDeclarations::synonym_in))]
    pub(crate) fn synonym(&mut self, alloc: Global) -> Result<Decl, ParseFault>
        ensures { Gives (λ d. (d, self.new)) result (synonym_in self.old) }
    {
        let name = self.con(alloc)?;
        let params = or_drop!(self.tyvars(alloc), name);
        or_drop!(self.expect(Symbol::Equals), name, params);
        let ty = or_drop!(self.type_expr(alloc), name, params);
        Ok(Decl {
            kind: DeclKind::Synonym { name, params, ty },
        })
    }
}
