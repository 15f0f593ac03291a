//! Single calls, for `tests/refuse_allocations.py --tests`, which fails each of a test's allocations in turn.
//!
//! With enough memory each call has its right result. If the call itself runs out of memory, its test ends with an error of its own; before the
//! call, the error is "no memory". A test has no other end.
// Why: docs/DECISIONS.md, "Refusals of single calls".
ghost use Rattle.std.specs.Prelude.{◌≡◌, []};
ghost use Rattle.hm_graph.specs.Imports.{IsImportPlan, IsLawful};
ghost use Rattle.hm_run_sources.specs.Names.{module_outlines};

use crate::sources::{NO_MEMORY, module_of, tokens_of};
use crate::stores::{IMPORTED, IMPORTER, outcome_of, set_of, shared_modules, store_of};
use crate::turns::brands;
use hm_check::{CheckFault, check_module};
use hm_graph::Plan;
use hm_names::{Kind, ScopeFault};
use hm_parse::{ParseFault, parse};
use hm_scope::scope;
use hm_scope_imports::are_imports_of;
use hm_store::{Entry, Refusal, Status, Store, Turn};
use hm_store_published::{LookFault, Naming};
use hm_store_shared::{Brands, Crew, Pass, Shared, SharedFault};
use hm_syntax::Module;
use hm_verdicts::{Outcome, Verdict};
use std::alloc::{AllocError, Global};
use std::marker::Brand;
use std::process::Abort;
use std::sync::ledger::Ledger;
use std::sync::{Arc, Wait};
use std::test::Fail;

/// Four workers, with room for nine calls each.
const FOUR: Crew = Crew {
    workers: 4,
    room: 9,
};

/// The error of a test whose call runs out of memory.
const REFUSED: &str = "the call is refused";

/// Four modules.
const FOUR_MODULES: &[u8] =
    b"module A where { x = y }\nmodule B where { import A ; import C }\nmodule C where { f x = x x }\nmodule D where { import B }";

#[test]
fn parse_alone(rt: HostRuntime) -> Result<(), Fail> {
    let tokens = tokens_of(rt.alloc(), FOUR_MODULES)?;
    match parse(rt.alloc(), FOUR_MODULES, &tokens) {
        Ok(modules) => assert_eq!(rt; modules.len(), 4),
        Err(ParseFault::Memory) => return Err(Fail::from(REFUSED)),
        Err(ParseFault::Syntax(_)) => return Err(Fail::from("syntax is refused")),
    }
    Ok(())
}

/// Returns the kind of the only fault of scope of a module without imports.
fn scope_fault(alloc: Global, module: &Module) -> Result<Option<Kind>, Fail> {
    if !are_imports_of(alloc, module, &[])? {
        return Err(Fail::from("it has imports"));
    }
    match scope(alloc, module, &[]) {
        Ok(_) => Ok(None),
        Err(ScopeFault::Memory) => Err(Fail::from(REFUSED)),
        Err(ScopeFault::Faults(faults)) => match faults.as_slice() {
            [fault] => Ok(Some(fault.kind)),
            _ => Err(Fail::from("more than one fault")),
        },
    }
}

/// Modules without imports, each with the kind of its only fault of scope, and that of its check.
const ALONE: [(&[u8], Option<Kind>, Option<Kind>); 3] = [
    (
        b"module A where { x = y }",
        Some(Kind::Unbound),
        Some(Kind::Unbound),
    ),
    (b"module C where { f x = x x }", None, Some(Kind::Untyped)),
    (
        b"module B where { a x = (x, x) ; b x = a (a x) }",
        None,
        None,
    ),
];

#[test]
fn scope_alone(rt: HostRuntime) -> Result<(), Fail> {
    for (source, kind, _) in &ALONE {
        let module = module_of(rt.alloc(), source)?;
        assert!(rt; scope_fault(rt.alloc(), &module)? == *kind);
    }
    Ok(())
}

/// Returns the kind of a module's first fault.
fn check_fault(alloc: Global, module: &Arc<Module>) -> Result<Option<Kind>, Fail> {
    match check_module(alloc, module, &[]) {
        Ok(outcome) => Ok(first_kind(&outcome)),
        Err(CheckFault::Memory) => Err(Fail::from(REFUSED)),
        Err(CheckFault::Imports) => Err(Fail::from("the imports are refused")),
    }
}

/// Returns the kind of the first fault of an outcome.
fn first_kind(outcome: &Outcome) -> Option<Kind> {
    match outcome.verdict() {
        Verdict::Good(_) => None,
        Verdict::Faulty(faults) => Some(faults.as_slice().first()?.kind),
    }
}

#[test]
fn check_module_alone(rt: HostRuntime) -> Result<(), Fail> {
    for (source, _, kind) in &ALONE {
        let module = module_of(rt.alloc(), source)?;
        assert!(rt; check_fault(rt.alloc(), &module)? == *kind);
    }
    Ok(())
}

/// Returns whether a store has two modules that no worker has claimed.
fn is_untouched(store: &Store) -> bool {
    store.modules().len() == 2
        && store.status(0) == Status::Waiting
        && store.status(1) == Status::Waiting
        && store.journal().is_empty()
        && !store.is_stopped()
}

/// Returns whether a new store for these modules is unchanged.
fn makes_store(alloc: Global, modules: Vec<Module>, plan: Plan) -> Result<bool, Fail>
    requires lawful { IsLawful (module_outlines modules.items) }
    requires planned { IsImportPlan (module_outlines modules.items) plan }
{
    let modules = shared_modules(alloc, modules)?;
    match Store::new(alloc, modules, plan) {
        Ok(store) => Ok(is_untouched(&store)),
        Err(AllocError) => Err(Fail::from(REFUSED)),
    }
}

#[test]
fn new_store_alone(rt: HostRuntime) -> Result<(), Fail> {
    match set_of(rt.alloc(), &[IMPORTER, IMPORTED]) {
        Ok((modules, plan)) => assert!(rt; makes_store(rt.alloc(), modules, plan)?),
        Err(fault) => return Err(fault),
    }
    Ok(())
}

/// Returns whether each of four passes has its number and room.
fn are_dealt<L: Ledger + Naming>(passes: &[Pass<L>]) -> bool {
    for (number, pass) in passes.iter().enumerate() {
        if pass.worker() != number || pass.room() != 9 {
            return false;
        }
    }
    passes.len() == 4
}

/// Puts a store behind its lock for four workers, and takes it out again.
fn shared_and_back<L: Ledger + Naming, R: AllocGlobal + Wait>(
    rt: &R,
    store: Store,
    brands: Brands,
) -> Result<Store, Fail>
    requires brand { (brands.blank.name ≡ L.name) × (brands.blank.parts ≡ L.parts) × (brands.blank.parts ≡ 4) }
    requires list { brands.opened.seen.book ≡ L.book }
    requires table { brands.unnamed.seat.table_id ≡ L.table }
    requires subjects { store.modules ≡ L.modules }
    requires plan { store.given.imports ≡ L.plan }
    requires empty { store.journal ≡ [] }
{
    match Shared::<L, &R>::new(rt.alloc(), rt, store, FOUR, brands) {
        Ok((shared, passes)) => {
            if !are_dealt(passes.as_slice()) {
                return Err(Fail::from("other passes"));
            }
            let (store, _book) = shared.into_store();
            Ok(store)
        }
        Err(SharedFault::Memory) => Err(Fail::from(REFUSED)),
        Err(SharedFault::NoReader) => Err(Fail::from("no reader")),
    }
}

#[test]
fn shared_alone(rt: HostRuntime) -> Result<(), Fail> {
    let store = store_of(rt.alloc(), &[IMPORTER, IMPORTED])?;
    let store = shared_and_back::<Brand, HostRuntime>(&rt, store, brands(rt.alloc())?)?;
    assert!(rt; is_untouched(&store));
    Ok(())
}

/// A module with two polymorphic functions.
const POLYMORPHIC: &[u8] = b"module A where { i x = x ; k x y = x }";

/// Publishes module 0. Returns the outcome if memory ran out, and `None` if it is published.
fn handed_back<L: Ledger + Naming, R: Wait>(
    rt: &R,
    shared: &Shared<L, &R>,
    pass: &mut Pass<L>,
    outcome: Outcome,
) -> Result<Option<Outcome>, Fail> {
    if !outcome.is_good() || pass.room() == 0 {
        return Err(Fail::from("faulty, or no room"));
    }
    match shared.publish(rt, pass, 0, outcome) {
        Ok(()) => Ok(None),
        Err((Refusal::Memory, outcome)) => Ok(Some(outcome)),
        Err(_) => Err(Fail::from("the publication is refused")),
    }
}

/// Returns whether module 0 can be published. If memory runs out once, it must run out again, because the list of publications is ahead of the
/// copies that look-ups read.
fn publishes<L: Ledger + Naming, R: AllocGlobal + Wait>(
    rt: &R,
    shared: &Shared<L, &R>,
    pass: &mut Pass<L>,
) -> Result<bool, Fail> {
    let outcome = outcome_of(rt.alloc(), POLYMORPHIC)?;
    match handed_back(rt, shared, pass, outcome)? {
        None => Ok(true),
        Some(outcome) => match handed_back(rt, shared, pass, outcome)? {
            None => Err(Fail::from("it is published after all")),
            Some(_) => Ok(false),
        },
    }
}

/// Claims module 0 and publishes it. Returns whether it was published.
fn claims_and_publishes<L: Ledger + Naming, R: Abort + AllocGlobal + Wait>(
    rt: &R,
    shared: &Shared<L, &R>,
    pass: &mut Pass<L>,
) -> Result<bool, Fail> {
    if pass.room() == 0 {
        return Err(Fail::from("no room"));
    }
    assert!(rt; shared.claim(rt, pass) == Turn::Job(0));
    publishes(rt, shared, pass)
}

/// Returns whether a worker that hasn't seen the publication of module 0 finds its interface.
fn finds<L: Ledger + Naming>(pass: &mut Pass<L>) -> Result<bool, Fail> {
    if pass.room() == 0 {
        return Err(Fail::from("no room"));
    }
    match pass.look(0) {
        Ok(found) => Ok(found.is_some()),
        Err(LookFault::Memory) => Err(Fail::from(NO_MEMORY)),
        Err(_) => Err(Fail::from("no look")),
    }
}

/// Returns whether a worker's stop is the first.
fn stops<L: Ledger + Naming, R: Wait>(
    rt: &R,
    shared: &Shared<L, &R>,
    pass: &mut Pass<L>,
) -> Result<bool, Fail> {
    if pass.room() == 0 {
        return Err(Fail::from("no room"));
    }
    Ok(shared.stop(rt, pass))
}

/// The first worker claims a module and publishes it; the second finds nothing before, and the interface after; the third stops the build.
/// Returns whether the module was published.
fn by_three<L: Ledger + Naming, R: Abort + AllocGlobal + Wait>(
    rt: &R,
    shared: &Shared<L, &R>,
    passes: &mut [Pass<L>],
) -> Result<bool, Fail> {
    let [first, second, third, _] = passes else {
        return Err(Fail::from("other passes"));
    };
    assert!(rt; !finds(second)?);
    let done = claims_and_publishes(rt, shared, first)?;
    assert!(rt; finds(second)? == done);
    assert!(rt; stops(rt, shared, third)?);
    Ok(done)
}

/// Has four workers make these calls on a new store. Returns the store, and whether the module was published.
fn published<L: Ledger + Naming, R: Abort + AllocGlobal + Wait>(
    rt: &R,
    store: Store,
    brands: Brands,
) -> Result<(Store, bool), Fail>
    requires brand { (brands.blank.name ≡ L.name) × (brands.blank.parts ≡ L.parts) × (brands.blank.parts ≡ 4) }
    requires list { brands.opened.seen.book ≡ L.book }
    requires table { brands.unnamed.seat.table_id ≡ L.table }
    requires subjects { store.modules ≡ L.modules }
    requires plan { store.given.imports ≡ L.plan }
    requires empty { store.journal ≡ [] }
{
    let (shared, mut passes) = Shared::<L, &R>::new(rt.alloc(), rt, store, FOUR, brands)?;
    let is_published = by_three(rt, &shared, &mut passes)?;
    let (store, _book) = shared.into_store();
    Ok((store, is_published))
}

/// The first entry of the journal.
const CLAIMED: Entry = Entry::Claim {
    worker: 0,
    module: 0,
};

/// The next entry, if the module is published.
const PUBLISHED: Entry = Entry::Publish {
    worker: 0,
    module: 0,
};

/// The last entry.
const STOPPED: Entry = Entry::Stop { worker: 2 };

#[test]
fn publish_alone(rt: HostRuntime) -> Result<(), Fail> {
    let store = store_of(rt.alloc(), &[POLYMORPHIC])?;
    let (store, is_published) = published::<Brand, HostRuntime>(&rt, store, brands(rt.alloc())?)?;
    assert_eq!(rt; store.look(0).is_some(), is_published);
    if is_published {
        assert!(rt; store.journal() == [CLAIMED, PUBLISHED, STOPPED].as_slice());
        Ok(())
    } else {
        assert!(rt; store.journal() == [CLAIMED, STOPPED].as_slice());
        Err(Fail::from(REFUSED))
    }
}
