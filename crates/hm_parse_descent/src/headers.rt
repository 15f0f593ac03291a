//! The part of a module before its declarations: its export list and its imports (Haskell 98 Report, sections 5.2 and 5.3).
ghost use Rattle.std.specs.Prelude.{◌≡◌, codes, option_map};
ghost use Rattle.hm_parse_grammar.specs.Reading.Basics.{tail, is_at_word};
ghost use Rattle.hm_parse_grammar.specs.Reading.Headers.{con_at, con_row, subs_in, subs_at, export_at, item_at, exports_in, items_in, exports_at, qualified_at, alias_at, list_at, import_in, import_at, import_from, next_import};
ghost use Rattle.hm_parse_grammar.specs.Reading.Answers.{Gives};

use crate::cursor::Parser;
use crate::owned::only;
use hm_parse_grammar::{ParseFault, Symbol};
use hm_syntax::{Export, Import, ImportItem, ImportList, Name, Row, SubItems};
use std::alloc::Global;

impl Parser<'_> {
    #[tactic(auto, unfolding(hm_parse_grammar::specs::Reading::Headers::con_at))]
    pub(crate) fn con(&mut self, alloc: Global) -> Result<Name, ParseFault>
        ensures { Gives (λ n. (n, self.new)) result (con_at self.old) }
    {
        if self.at(Symbol::Con) {
            self.name(alloc)
        } else {
            Err(ParseFault::Syntax(self.place()))
        }
    }

    /// Reads constructors with commas between them, at least one.
    #[tactic(auto, using(crate::proofs::TypeLoops::comma_shorter, crate::proofs::Loops::cons_go_on, crate::proofs::Loops::cons_end, crate::proofs::Loops::cons_fail, crate::proofs::Loops::cons_shorter), unfolding(hm_parse_grammar::specs::Reading::Headers::con_row))]
    pub(crate) fn con_row(&mut self, alloc: Global) -> Result<Row<Name>, ParseFault>
        ensures { Gives (λ s. (s, self.new)) result (con_row self.old) }
    {
        let first = self.con(alloc)?;
        let mut items = only(alloc, first)?;
        'cons: while self.at(Symbol::Comma) {
            self.skip();
            items.push(self.con(alloc)?)?;
        }
        Ok(Row { items })
    }

    /// Reads the list after a type, after its `(`.
    #[tactic(auto, unfolding(hm_parse_grammar::specs::Reading::Headers::subs_in))]
    pub(crate) fn subs_in(&mut self, alloc: Global) -> Result<SubItems, ParseFault>
        ensures { Gives (λ s. (s, self.new)) result (subs_in self.old) }
    {
        if self.at(Symbol::Dots) {
            self.skip();
            self.expect(Symbol::Close)?;
            return Ok(SubItems::All);
        }
        if self.at(Symbol::Close) {
            self.skip();
            let items = Vec::new(alloc);
            return Ok(SubItems::Some(Row { items }));
        }
        let cons = self.con_row(alloc)?;
        Ok(SubItems::Some(self.before(cons, Symbol::Close)?))
    }

    #[tactic(auto, unfolding(hm_parse_grammar::specs::Reading::Headers::subs_at))]
    pub(crate) fn subs(&mut self, alloc: Global) -> Result<SubItems, ParseFault>
        ensures { Gives (λ s. (s, self.new)) result (subs_at self.old) }
    {
        if self.at(Symbol::Open) {
            self.skip();
            self.subs_in(alloc)
        } else {
            Ok(SubItems::None)
        }
    }

    #[tactic(auto, unfolding(hm_parse_grammar::specs::Reading::Headers::export_at))]
    pub(crate) fn export(&mut self, alloc: Global) -> Result<Export, ParseFault>
        ensures { Gives (λ e. (e, self.new)) result (export_at self.old) }
    {
        match self.symbol() {
            Symbol::Var | Symbol::QVar => Ok(Export::Var(self.name(alloc)?)),
            Symbol::Con | Symbol::QCon => {
                let name = self.name(alloc)?;
                let subs = or_drop!(self.subs(alloc), name);
                Ok(Export::Con(name, subs))
            }
            Symbol::Module => {
                self.skip();
                Ok(Export::Whole(self.modid(alloc)?))
            }
            _ => Err(ParseFault::Syntax(self.place())),
        }
    }

    #[tactic(auto, unfolding(hm_parse_grammar::specs::Reading::Headers::item_at))]
    pub(crate) fn item(&mut self, alloc: Global) -> Result<ImportItem, ParseFault>
        ensures { Gives (λ e. (e, self.new)) result (item_at self.old) }
    {
        match self.symbol() {
            Symbol::Var => Ok(ImportItem::Var(self.name(alloc)?)),
            Symbol::Con => {
                let name = self.name(alloc)?;
                let subs = or_drop!(self.subs(alloc), name);
                Ok(ImportItem::Con(name, subs))
            }
            _ => Err(ParseFault::Syntax(self.place())),
        }
    }

    /// Reads an export list after its `(`.
    #[tactic(auto, using(crate::proofs::Loops::exports_go_on, crate::proofs::Loops::exports_end, crate::proofs::Loops::exports_fail, crate::proofs::Loops::exports_open, crate::proofs::Loops::exports_start, crate::proofs::Loops::exports_shorter), unfolding(hm_parse_grammar::specs::Reading::Headers::exports_in))]
    pub(crate) fn exports_in(&mut self, alloc: Global) -> Result<Row<Export>, ParseFault>
        ensures { Gives (λ e. (e, self.new)) result (exports_in self.old) }
    {
        if self.at(Symbol::Comma) {
            self.skip();
            self.expect(Symbol::Close)?;
            let items = Vec::new(alloc);
            return Ok(Row { items });
        }
        let mut items = Vec::new(alloc);
        'exports: while !self.at(Symbol::Close) {
            items.push(self.export(alloc)?)?;
            self.item_end(Symbol::Comma, Symbol::Close)?;
        }
        self.skip();
        Ok(Row { items })
    }

    /// Reads an import list after its `(`.
    #[tactic(auto, using(crate::proofs::Loops::items_go_on, crate::proofs::Loops::items_end, crate::proofs::Loops::items_fail, crate::proofs::Loops::items_open, crate::proofs::Loops::items_start, crate::proofs::Loops::items_shorter), unfolding(hm_parse_grammar::specs::Reading::Headers::items_in))]
    pub(crate) fn items_in(&mut self, alloc: Global) -> Result<Row<ImportItem>, ParseFault>
        ensures { Gives (λ e. (e, self.new)) result (items_in self.old) }
    {
        if self.at(Symbol::Comma) {
            self.skip();
            self.expect(Symbol::Close)?;
            let items = Vec::new(alloc);
            return Ok(Row { items });
        }
        let mut items = Vec::new(alloc);
        'items: while !self.at(Symbol::Close) {
            items.push(self.item(alloc)?)?;
            self.item_end(Symbol::Comma, Symbol::Close)?;
        }
        self.skip();
        Ok(Row { items })
    }

    #[tactic(auto, unfolding(hm_parse_grammar::specs::Reading::Headers::exports_at))]
    pub fn exports(&mut self, alloc: Global) -> Result<Option<Row<Export>>, ParseFault>
        ensures { Gives (λ e. (e, self.new)) result (exports_at self.old) }
    {
        if self.at(Symbol::Open) {
            self.skip();
            Ok(Some(self.exports_in(alloc)?))
        } else {
            Ok(None)
        }
    }

    /// Skips `qualified` if it is next. Returns whether it was.
    pub(crate) fn qualified(&mut self) -> bool
        ensures { (result, self.new) ≡ qualified_at self.old }
    {
        let qualified = self.is_at_word(b"qualified");
        if qualified {
            self.skip();
        }
        qualified
    }

    #[tactic(auto, unfolding(hm_parse_grammar::specs::Reading::Headers::alias_at))]
    pub(crate) fn alias(&mut self, alloc: Global) -> Result<Option<Name>, ParseFault>
        ensures { Gives (λ e. (e, self.new)) result (alias_at self.old) }
    {
        if self.is_at_word(b"as") {
            self.skip();
            Ok(Some(self.modid(alloc)?))
        } else {
            Ok(None)
        }
    }

    #[tactic(auto, unfolding(hm_parse_grammar::specs::Reading::Headers::list_at))]
    pub(crate) fn list(&mut self, alloc: Global) -> Result<ImportList, ParseFault>
        ensures { Gives (λ e. (e, self.new)) result (list_at self.old) }
    {
        if self.is_at_word(b"hiding") {
            self.skip();
            self.expect(Symbol::Open)?;
            Ok(ImportList::Hiding(self.items_in(alloc)?))
        } else if self.at(Symbol::Open) {
            self.skip();
            Ok(ImportList::Only(self.items_in(alloc)?))
        } else {
            Ok(ImportList::Every)
        }
    }

    /// Reads an import after that word.
    #[tactic(auto, unfolding(hm_parse_grammar::specs::Reading::Headers::import_at, hm_parse_grammar::specs::Reading::Headers::import_in))]
    pub(crate) fn import(&mut self, alloc: Global) -> Result<Import, ParseFault>
        ensures { Gives (λ e. (e, self.new)) result (import_at self.old) }
    {
        let qualified = self.qualified();
        let name = self.modid(alloc)?;
        let alias = or_drop!(self.alias(alloc), name);
        let list = or_drop!(self.list(alloc), name, alias);
        Ok(Import {
            qualified,
            name,
            alias,
            list,
        })
    }

    /// Reads an import, or returns `None` if none is next.
    #[tactic(auto, unfolding(hm_parse_grammar::specs::Reading::Headers::next_import, hm_parse_grammar::specs::Reading::Headers::import_from))]
    pub fn next_import(&mut self, alloc: Global) -> Result<Option<Import>, ParseFault>
        ensures { Gives (λ e. (e, self.new)) result (next_import self.old) }
    {
        self.past_semicolons();
        if !self.at(Symbol::Import) {
            return Ok(None);
        }
        self.skip();
        let import = self.import(alloc)?;
        Ok(Some(self.ended(import, Symbol::Semicolon, Symbol::RightBrace)?))
    }
}
