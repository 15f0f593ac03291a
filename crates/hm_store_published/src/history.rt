//! The list of all publications, which only the proofs have. Threads share one word, its length. A front is a prefix that a thread has seen.
ghost use Rattle.std.specs.Prelude.{◌≡◌, ◌+◌, ◌==◌, ◌<◌, ◌≤◌, ◌^◌, ◌++◌, ◌∷◌, ◌⊎◌, [], length, MatchBool};
ghost use mathlib.Core.List.{IsPrefix};
ghost use Rattle.hm_store_published.specs.Publications.{IsLawful, MayFollow};
ghost use Rattle.hm_store_published.specs.Rules.{head_of};

use crate::publication::Publication;
use logbook::{Gain, Offer, Plain, Play, Rule, Seen, Start, Word};
use std::marker::{Brand, Model, PhantomData};

// Why: docs/DECISIONS.md, "Lawful lists".
/// The rule of the list: the shared word is its length.
pub struct Law;

impl Rule<Publication, u64> for Law {
    ghost use Rattle.std.specs.Prelude.{[]};
    ghost use base.Fml.{ftrue};
    ghost use Rattle.hm_store_published.specs.Rules.{IsKept};

    ghost holds = { λ cells log. IsKept cells log };

    ghost first = { [] };

    ghost hinted = { λ n log. Unit {0} };

    ghost shows = { λ log. [] };

    ghost keeps = { λ names log. ftrue };

    ghost moves = { λ ask before after answer. Unit {0} };
}

/// The rule for steps that exchange nothing.
pub struct Nothing;

impl Gain<Publication, u64> for Nothing {
    ghost use base.Fml.{ftrue};

    ghost after = { λ names about answer. ftrue };
}

/// A step that adds a publication.
pub struct Add;

impl Play<Publication, u64> for Add {
    ghost use Rattle.hm_store_published.specs.Rules.{Adds};

    ghost then = { Adds };
}

impl Plain<Publication, Publication, u64> for Add {
    ghost use Rattle.std.specs.Prelude.{None};

    ghost ask = { λ publication. publication };

    ghost state = { λ publication. None };
}

// Why: docs/DECISIONS.md, "Names of builds".
/// The ghost name of a build: the list of its publications, the table of its entries, its modules, and their import plan. Each build has its own.
pub trait Naming {
    ghost use Rattle.std.specs.Prelude.{List, ℕ};
    ghost use Rattle.hm_syntax.specs.declared.ast.Module.{Module};
    ghost use Rattle.logbook.specs.Pages.{Book};
    ghost use Rattle.atomic_table.specs.Seated.{TableId};

    ghost book: { Book };

    ghost table: { TableId };

    ghost modules: { List Module };

    ghost plan: { List (List ℕ) };
}

impl Naming for Brand {
    ghost use Rattle.std.specs.Prelude.{[]};

    ghost modules = { [] };

    ghost plan = { [] };

    ghost book = { record { number = 0; log_name = 0; cells_name = 0 } };

    ghost table = { record { words = 0; slots = 0; views_name = 0; atom = 0; block = 0; offset = 0; slot_names = [] } };
}

/// An empty list without a name.
#[derive(Drop)]
pub struct Opened {
    head: Word<Publication, u64, Law>,
    pub seen: Seen<Publication, u64, Law>,
    pub ghost empty: { seen.log ≡ [] },
    pub ghost head_is: { head ≡ head_of seen.book },
}

impl Opened {
    #[tactic(auto, using(crate::proofs::Lawful::none_lawful))]
    pub fn new() -> Opened {
        let (seen, mut first, _second) = Seen::open(Start::alone(), 0, 0);
        Opened {
            head: Word::tracked(0, &mut first),
            seen,
        }
    }

    /// Returns the list under a name, and the front that has seen nothing.
    pub fn named<J: Naming>(self) -> (History<J>, Front<J>)
        requires { self.seen.book ≡ J.book }
        ensures { result.1 ≡ [] }
    {
        let Opened { head, seen } = self;
        (
            History {
                head,
                of: PhantomData,
            },
            Front {
                count: 0,
                seen,
                of: PhantomData,
            },
        )
    }
}

/// The end of the list, at which publications are added: a word with its length.
#[derive(Drop)]
pub struct History<J: Naming> {
    head: Word<Publication, u64, Law>,
    of: PhantomData<J>,
    ghost head_is: { head ≡ head_of J.book },
}

/// A prefix of the list that was seen. Contracts see its publications.
#[derive(Drop)]
pub struct Front<J: Naming> {
    count: u64,
    seen: Seen<Publication, u64, Law>,
    of: PhantomData<J>,
}

impl<J: Naming> Model for Front<J> {
    ghost use Rattle.std.specs.Prelude.{◌≡◌, List, length};
    ghost use Rattle.hm_store_published.specs.declared.publication.Publication.{Publication};
    ghost use Rattle.hm_store_published.specs.Publications.{IsLawful};
    ghost use Rattle.std.specs.Coded.{codes};
    ghost use Rattle.hm_syntax.specs.Codes.{coded_declaration};
    ghost use Rattle.hm_types.specs.Interfaces.{coded_exports};

    ghost Value = { List Publication };

    ghost coded = { Prim.hlevel (codes, coded_declaration, coded_exports) };

    ghost view = { λ f. f.seen.log };

    ghost invariant = { λ f. (f.count ≡ length f.seen.log) × (f.seen.book ≡ J.book) × IsLawful J.modules J.plan f.seen.log };
}

impl<J: Naming> Front<J> {
    /// Returns the number of publications.
    pub fn len(&self) -> u64
        ensures length { result ≡ length self.now }
        ensures lawful { IsLawful J.modules J.plan self.now }
    {
        self.count
    }

    /// Returns a copy.
    pub fn again(&self) -> Front<J>
        ensures { result ≡ self.now }
    {
        Front {
            count: self.count,
            seen: self.seen.again(),
            of: PhantomData,
        }
    }

    /// Returns the longer of two fronts. The other one is a prefix of it.
    pub fn longer(&self, that: &Front<J>) -> Front<J>
        ensures this { length that.now ≤ length self.now → result ≡ self.now }
        ensures that { length self.now < length that.now → result ≡ that.now }
        ensures begun { IsPrefix self.now result }
        ensures begun_by { IsPrefix that.now result }
        ensures lawful { IsLawful J.modules J.plan result }
    {
        let mut both = self.seen.again();
        both.learn(&that.seen);
        if self.count < that.count {
            that.again()
        } else {
            self.again()
        }
    }

    /// Shows that one of two fronts is a prefix of the other.
    #[tactic(auto, using(crate::proofs::Beginnings::one_begins))]
    pub fn beside(&self, that: &Front<J>)
        ensures { IsPrefix self.now that.now ⊎ IsPrefix that.now self.now }
    {
        let _longer = self.longer(that);
    }

    /// Adds a publication if this front is the whole list. Returns false and changes nothing if the list is longer.
    #[tactic(auto, using(crate::proofs::Lawful::more_lawful))]
    pub fn add(&mut self, history: &History<J>, publication: &Publication) -> bool
        requires room { length self.old < 2 ^ 62 }
        requires lawful { MayFollow J.modules J.plan self.old publication.now }
        ensures seen { MatchBool result (self.new ≡ self.old ++ publication.now ∷ []) (self.new ≡ self.old) }
    {
        let before = self.seen.again();
        let mut offer: Offer<Publication, u64, Law, Nothing> = self
            .seen
            .plain::<Nothing, Publication, Add>(publication);
        let mut pen = self.seen.no_pen();
        let count = self.count;
        let found = history
            .head
            .compare_exchange::<Add, Nothing>(
                count,
                count + 1,
                &mut self.seen,
                &mut offer,
                &mut pen,
            );
        if found != count {
            self.seen = before;
            return false;
        }
        self.count = count + 1;
        true
    }
}
