//! Patterns (Haskell 98 Report, section 3.17), and the constructors and literals in them (section 3.2).
ghost use Rattle.std.specs.Prelude.{◌≡◌, IfOk, OnOk, true, codes};
ghost use Rattle.hm_parse_grammar.specs.Reading.Basics.{peek, tail, is_at, list_in};
ghost use Rattle.hm_parse_grammar.specs.Reading.Constructors.{begins_gcon, special_at, commas_at, mark_by, mark_at, gcon_at, literal_at};
ghost use Rattle.hm_parse_grammar.specs.Grammar.Patterns.{tuple_text};
ghost use Rattle.hm_parse_grammar.specs.Reading.Patterns.{list_of_patterns, apat_by, apat_step, apats_with, lpat_with, bound_with, all_patterns};
ghost use Rattle.hm_parse_grammar.specs.Reading.Answers.{Gives};
ghost use Rattle.hm_parse_grammar.specs.declared.symbol.Symbol.TheVariants.{Colon, Comma, Open};

use crate::cursor::Parser;
use crate::owned::{boxed, first_of_two, only};
use crate::types::MAX_COMPONENTS;
use hm_parse_grammar::{ParseFault, Symbol};
use hm_syntax::{Literal, LiteralKind, Name, Pat, PatKind};
use hm_texts::Text;
use std::alloc::{AllocError, Global};

/// The largest number of commas in the constructor of a tuple.
const MAX_COMMAS: usize = 14;

/// Returns the constructor of tuples with one component more than it has commas.
#[tactic(auto, using(crate::proofs::MarkLoops::marks_text, crate::proofs::MarkLoops::marks_closed))]
fn tuple_text(alloc: Global, commas: usize) -> Result<Text, AllocError>
    ensures { IfOk result (λ text. text ≡ tuple_text commas) }
{
    let mut text = String::from_str(alloc, "(")?;
    let mut written = 0;
    'commas: while written < commas {
        text.push(',')?;
        written += 1;
    }
    text.push(')')?;
    Ok(Text::new(text)?)
}

/// Returns the text of a name, and drops its other parts.
fn into_text(name: Name) -> Result<Text, AllocError>
    ensures { IfOk result (λ text. text ≡ name.text) }
{
    name.text.copy()
}

impl Parser<'_> {
    /// Returns whether a constructor is next that isn't a pattern or an expression in brackets.
    #[tactic(auto, unfolding(hm_parse_grammar::specs::Reading::Constructors::begins_gcon))]
    pub(crate) fn begins_gcon(&self) -> bool
        ensures { result ≡ begins_gcon self.now }
    {
        match self.symbol() {
            Symbol::Con | Symbol::QCon => true,
            Symbol::Open => self.second().is_mark(),
            Symbol::OpenSquare => self.second().is(Symbol::CloseSquare),
            _ => false,
        }
    }

    /// Skips commas, and returns their number. One more than allowed is a fault.
    #[tactic(auto, using(crate::proofs::MarkLoops::marks_fewer, crate::proofs::MarkLoops::marks_rest, crate::proofs::MarkLoops::marks_end, crate::proofs::MarkLoops::marks_many, crate::proofs::TypeLoops::comma_shorter))]
    pub(crate) fn commas(&mut self) -> Result<usize, ParseFault>
        ensures { Gives (λ n. (n, self.new)) result (commas_at self.old) }
    {
        let mut commas = 0;
        'marks: while self.at(Symbol::Comma) {
            if commas == MAX_COMMAS {
                return Err(ParseFault::Syntax(self.place()));
            }
            self.skip();
            commas += 1;
        }
        Ok(commas)
    }

    /// Reads the text of a special constructor after its `(`.
    #[tactic(auto, unfolding(hm_parse_grammar::specs::Reading::Constructors::mark_at))]
    pub(crate) fn mark(&mut self, alloc: Global) -> Result<Text, ParseFault>
        ensures { Gives (λ text. (text, self.new)) result (mark_at self.old) }
    {
        match self.symbol() {
            Symbol::Close => {
                self.skip();
                Ok(Text::from_str(alloc, "()")?)
            }
            Symbol::Colon => {
                self.skip();
                self.expect(Symbol::Close)?;
                Ok(Text::from_str(alloc, ":")?)
            }
            Symbol::Comma => self.tuple_mark(alloc),
            _ => Err(ParseFault::Syntax(self.place())),
        }
    }

    /// Reads the text of a tuple constructor from its first comma.
    fn tuple_mark(&mut self, alloc: Global) -> Result<Text, ParseFault>
        ensures { Gives (λ text. (text, self.new)) result (mark_by Comma self.old) }
    {
        let commas = self.commas()?;
        self.expect(Symbol::Close)?;
        Ok(tuple_text(alloc, commas)?)
    }

    /// Reads a constructor.
    #[tactic(auto, using(crate::proofs::MarkLoops::open_is, crate::proofs::MarkLoops::square_is), unfolding(hm_parse_grammar::specs::Reading::Constructors::gcon_at))]
    pub(crate) fn gcon(&mut self, alloc: Global) -> Result<Name, ParseFault>
        ensures { Gives (λ n. (n, self.new)) result (gcon_at self.old) }
    {
        let place = self.place();
        match self.symbol() {
            Symbol::Con | Symbol::QCon => self.name(alloc),
            Symbol::Open => {
                self.skip();
                let text = self.mark(alloc)?;
                Ok(Name {
                    qualifier: None,
                    text,
                    place,
                })
            }
            Symbol::OpenSquare => {
                self.skip();
                self.expect(Symbol::CloseSquare)?;
                let text = Text::from_str(alloc, "[]")?;
                Ok(Name {
                    qualifier: None,
                    text,
                    place,
                })
            }
            _ => Err(ParseFault::Syntax(self.place())),
        }
    }

    // Why: docs/DECISIONS.md, "Literals".
    /// Reads a literal, including its quotes.
    #[tactic(auto, unfolding(hm_parse_grammar::specs::Reading::Constructors::literal_at))]
    pub(crate) fn literal(&mut self, alloc: Global) -> Result<Literal, ParseFault>
        ensures { Gives (λ l. (l, self.new)) result (literal_at self.old) }
    {
        match self.symbol() {
            Symbol::Integer => {
                let name = self.module_name(alloc)?;
                Ok(Literal {
                    kind: LiteralKind::Integer(into_text(name)?),
                })
            }
            Symbol::Character => {
                let name = self.module_name(alloc)?;
                Ok(Literal {
                    kind: LiteralKind::Character(into_text(name)?),
                })
            }
            Symbol::Text => {
                let name = self.module_name(alloc)?;
                Ok(Literal {
                    kind: LiteralKind::Text(into_text(name)?),
                })
            }
            _ => Err(ParseFault::Syntax(self.place())),
        }
    }

    /// Reads a colon as a name.
    #[tactic(auto, using(crate::proofs::MarkLoops::colon_is))]
    pub(crate) fn colon(&mut self, alloc: Global) -> Result<Name, AllocError>
        requires { is_at Colon self.old ≡ true }
        ensures ok { OnOk result (self.new ≡ tail self.old) }
        ensures name { IfOk result (λ n. n ≡ special_at (codes ":") self.old) }
    {
        let place = self.place();
        self.skip();
        let text = Text::from_str(alloc, ":")?;
        Ok(Name {
            qualifier: None,
            text,
            place,
        })
    }

    /// Reads a colon as a name, and returns it after the part before it.
    pub(crate) fn with_colon<T: Drop>(
        &mut self,
        alloc: Global,
        part: T,
    ) -> Result<(T, Name), AllocError>
        requires { is_at Colon self.old ≡ true }
        ensures ok { OnOk result (self.new ≡ tail self.old) }
        ensures both { IfOk result (λ both. both ≡ (part, special_at (codes ":") self.old)) }
    {
        let colon = self.colon(alloc)?;
        Ok((part, colon))
    }

    #[cycle(pats)]
    #[tactic(auto, using(crate::proofs::PatternLoops::pat_is, crate::proofs::PatternLoops::lpat_shorter, crate::proofs::TypeLoops::tail_length), unfolding(hm_parse_grammar::specs::Reading::Patterns::pat_step))]
    pub(crate) fn pat(&mut self, alloc: Global) -> Result<Pat, ParseFault>
        ensures { Gives (λ p. (p, self.new)) result (all_patterns.whole self.old) }
    {
        let first = self.lpat(alloc)?;
        if !self.at(Symbol::Colon) {
            return Ok(first);
        }
        let mut both = first_of_two(alloc, first)?;
        let colon = self.colon(alloc)?;
        let second = or_drop!(self.pat(alloc), both, colon);
        both.push(second)?;
        Ok(Pat {
            kind: PatKind::Con(colon, both),
        })
    }

    #[cycle(pats)]
    #[tactic(auto, using(crate::proofs::PatternLoops::gcon_shorter), unfolding(hm_parse_grammar::specs::Reading::Patterns::lpat_with))]
    fn lpat(&mut self, alloc: Global) -> Result<Pat, ParseFault>
        ensures { Gives (λ p. (p, self.new)) result (lpat_with all_patterns self.old) }
    {
        if !self.begins_gcon() {
            return self.apat(alloc);
        }
        let name = self.gcon(alloc)?;
        let args = or_drop!(self.apats(alloc), name);
        Ok(Pat {
            kind: PatKind::Con(name, args),
        })
    }

    /// Reads patterns that need no parentheses, up to another token.
    #[cycle(pats)]
    #[tactic(auto, using(crate::proofs::PatternLoops::apats_go_on, crate::proofs::PatternLoops::apats_end, crate::proofs::PatternLoops::apats_fail, crate::proofs::PatternLoops::apats_start, crate::proofs::PatternLoops::apats_shorter), unfolding(hm_parse_grammar::specs::Reading::Patterns::apats_with))]
    pub(crate) fn apats(&mut self, alloc: Global) -> Result<Vec<Pat>, ParseFault>
        ensures { Gives (λ v. (v.items, self.new)) result (apats_with all_patterns self.old) }
    {
        let mut found = Vec::new(alloc);
        'apats: while self.symbol().begins_apat() {
            found.push(self.apat(alloc)?)?;
        }
        Ok(found)
    }

    /// Reads a pattern that needs no parentheses.
    #[cycle(pats)]
    #[tactic(auto, using(crate::proofs::PatternLoops::apat_is, crate::proofs::TypeLoops::square_shorter, crate::proofs::PatternLoops::tilde_shorter), unfolding(hm_parse_grammar::specs::Reading::Patterns::apat_step))]
    pub(crate) fn apat(&mut self, alloc: Global) -> Result<Pat, ParseFault>
        ensures { Gives (λ p. (p, self.new)) result (apat_step all_patterns self.old) }
    {
        if self.begins_gcon() {
            let name = self.gcon(alloc)?;
            return Ok(Pat {
                kind: PatKind::Con(name, Vec::new(alloc)),
            });
        }
        match self.symbol() {
            Symbol::Var => self.bound_pat(alloc),
            Symbol::Integer | Symbol::Character | Symbol::Text => {
                let literal = self.literal(alloc)?;
                Ok(Pat {
                    kind: PatKind::Literal(literal),
                })
            }
            Symbol::Wild => {
                self.skip();
                Ok(Pat {
                    kind: PatKind::Wild,
                })
            }
            Symbol::Open => self.pat_in(alloc),
            Symbol::OpenSquare => {
                self.skip();
                self.pat_list(alloc)
            }
            Symbol::Tilde => {
                self.skip();
                let inner = self.apat(alloc)?;
                let inner = boxed(alloc, inner)?;
                Ok(Pat {
                    kind: PatKind::Lazy(inner),
                })
            }
            _ => Err(ParseFault::Syntax(self.place())),
        }
    }

    /// Reads a variable, and `@` with a pattern if that is next.
    #[cycle(pats)]
    #[tactic(auto, using(crate::proofs::PatternLoops::apat_is, crate::proofs::TypeLoops::name_shorter, crate::proofs::TypeLoops::tail_length), unfolding(hm_parse_grammar::specs::Reading::Patterns::bound_with))]
    fn bound_pat(&mut self, alloc: Global) -> Result<Pat, ParseFault>
        ensures { Gives (λ p. (p, self.new)) result (bound_with all_patterns self.old) }
    {
        let name = self.name(alloc)?;
        if !self.at(Symbol::At) {
            return Ok(Pat {
                kind: PatKind::Var(name),
            });
        }
        self.skip();
        let inner = or_drop!(self.apat(alloc), name);
        let inner = boxed(alloc, inner)?;
        Ok(Pat {
            kind: PatKind::Bound(name, inner),
        })
    }

    /// Reads a pattern or a tuple in parentheses. A comma after the last allowed component is a fault.
    #[cycle(pats)]
    #[tactic(auto, using(crate::proofs::Loops::open_shorter, crate::proofs::TypeLoops::comma_shorter, crate::proofs::PatternLoops::pattern_shorter, crate::proofs::PatternLoops::no_pattern, crate::proofs::PatternLoops::alone, crate::proofs::PatternLoops::alone_open, crate::proofs::PatternLoops::components_start, crate::proofs::PatternLoops::components_go_on, crate::proofs::PatternLoops::components_end, crate::proofs::PatternLoops::components_open, crate::proofs::PatternLoops::components_fail, crate::proofs::PatternLoops::components_many))]
    fn pat_in(&mut self, alloc: Global) -> Result<Pat, ParseFault>
        requires { peek self.old ≡ Open }
        ensures { Gives (λ p. (p, self.new)) result (apat_by all_patterns Open self.old) }
    {
        self.skip();
        let first = self.pat(alloc)?;
        if !self.at(Symbol::Comma) {
            return Ok(self.before(first, Symbol::Close)?);
        }
        let mut found = first_of_two(alloc, first)?;
        'components: while self.at(Symbol::Comma) {
            if found.len() == MAX_COMPONENTS {
                return Err(ParseFault::Syntax(self.place()));
            }
            self.skip();
            found.push(self.pat(alloc)?)?;
        }
        self.expect(Symbol::Close)?;
        Ok(Pat {
            kind: PatKind::Tuple(found),
        })
    }

    /// Reads a list after `[`.
    #[cycle(pats)]
    #[tactic(auto, using(crate::proofs::TypeLoops::comma_shorter, crate::proofs::PatternLoops::pattern_shorter, crate::proofs::PatternLoops::elements_none, crate::proofs::PatternLoops::elements_start, crate::proofs::PatternLoops::elements_go_on, crate::proofs::PatternLoops::elements_end, crate::proofs::PatternLoops::elements_open, crate::proofs::PatternLoops::elements_fail))]
    fn pat_list(&mut self, alloc: Global) -> Result<Pat, ParseFault>
        ensures { Gives (λ p. (p, self.new)) result (list_in all_patterns.whole list_of_patterns self.old) }
    {
        let first = self.pat(alloc)?;
        let mut found = only(alloc, first)?;
        'elements: while self.at(Symbol::Comma) {
            self.skip();
            found.push(self.pat(alloc)?)?;
        }
        self.expect(Symbol::CloseSquare)?;
        Ok(Pat {
            kind: PatKind::List(found),
        })
    }
}
