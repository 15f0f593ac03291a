//! Top-level declarations (Haskell 98 Report, section 4).
ghost use Rattle.hm_parse_grammar.specs.Reading.Topdecls.{topdecl_at};
ghost use Rattle.hm_parse_grammar.specs.Reading.Answers.{Gives};

use crate::cursor::Parser;
use hm_parse_grammar::{ParseFault, Symbol};
use hm_syntax::Decl;
use std::alloc::Global;

impl Parser<'_> {
    /// Reads a declaration of a type, a signature, a clause or a pattern binding.
    #[tactic(auto, unfolding(hm_parse_grammar::specs::Reading::Topdecls::topdecl_at))]
    pub fn topdecl(&mut self, alloc: Global) -> Result<Decl, ParseFault>
        ensures { Gives (λ d. (d, self.new)) result (topdecl_at self.old) }
    {
        if self.at(Symbol::Data) {
            self.skip();
            self.data(alloc)
        } else if self.at(Symbol::Newtype) {
            self.skip();
            self.newtype(alloc)
        } else if self.at(Symbol::TypeWord) {
            self.skip();
            self.synonym(alloc)
        } else {
            self.decl(alloc)
        }
    }
}
