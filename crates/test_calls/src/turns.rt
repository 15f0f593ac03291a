//! Calls of workers in turn, on a store and on a shared store.
ghost use Rattle.std.specs.Prelude.{◌≡◌, [], IfOk};

use crate::sources::{NO_MEMORY, module_of};
use crate::stores::{IMPORTED, IMPORTER, outcome_of, store_of};
use hm_check::{CheckFault, check_module};
use hm_store::{Claimed, Entry, Refusal, Status, Store, Turn};
use hm_store_journal::Unnamed;
use hm_store_published::{LookFault, Naming, Opened};
use hm_store_shared::{Brands, Crew, Pass, Shared};
use hm_verdicts::Verdict;
use std::alloc::{AllocError, Global};
use std::marker::Brand;
use std::sync::ledger::{Blank, Ledger};
use std::sync::{Arc, Wait};
use std::test::Fail;

/// A module with the name of `IMPORTED`, and another interface.
const OTHER: &[u8] = b"module B where { y = 1 }";

/// Publishes the outcome of this source as module 1. Returns the refusal, or `None` if the store accepts it.
fn answer(
    alloc: Global,
    store: &mut Store,
    worker: usize,
    source: &[u8],
) -> Result<Option<Refusal>, Fail> {
    let outcome = outcome_of(alloc, source)?;
    if !outcome.is_good() {
        return Err(Fail::from("a faulty module"));
    }
    match store.publish(worker, 1, outcome) {
        Ok(()) => Ok(None),
        Err((refusal, _)) => Ok(Some(refusal)),
    }
}

/// Returns whether worker 0 gets module 1, and worker 1 has to wait and finds nothing.
fn begins(store: &mut Store) -> bool {
    let first = store.claim(0);
    let second = store.claim(1);
    first == Claimed::Job(1) && second == Claimed::Later && store.look(1).is_none()
}

/// Returns whether a publication by another worker and one of another module are refused, each for its own reason.
fn refuses(alloc: Global, store: &mut Store) -> Result<bool, Fail> {
    let other_worker = answer(alloc, store, 1, IMPORTED)?;
    let other_module = answer(alloc, store, 0, OTHER)?;
    let reasons = [other_worker, other_module];
    Ok(reasons == [Some(Refusal::NotYours), Some(Refusal::Stranger)] && store.journal().len() == 1)
}

/// Returns whether the publication by worker 0 is accepted, found and counted.
fn takes(alloc: Global, store: &mut Store) -> Result<bool, Fail> {
    let taken = answer(alloc, store, 0, IMPORTED)?;
    Ok(taken.is_none() && store.look(1).is_some() && store.journal().len() == 2)
}

/// Returns whether the first stop ends the build, and the second adds no entry.
fn stops_once(store: &mut Store) -> bool {
    let first = store.stop(1);
    let second = store.stop(0);
    first && !second && store.claim(0) == Claimed::Done && store.journal().len() == 3
}

/// Returns whether the publications before each entry and after the last are counted right.
fn counts_publications(store: &Store) -> bool {
    store.journal().len() == 3
        && store.publications(1) == 0
        && store.publications(2) == 1
        && store.publications(3) == 1
}

#[test]
fn store_in_turn(rt: HostRuntime) -> Result<(), Fail> {
    let mut store = store_of(rt.alloc(), &[IMPORTER, IMPORTED])?;
    assert!(rt; begins(&mut store));
    assert!(rt; refuses(rt.alloc(), &mut store)?);
    assert!(rt; takes(rt.alloc(), &mut store)?);
    assert!(rt; stops_once(&mut store));
    assert!(rt; counts_publications(&store));
    Ok(())
}

/// A module with a name that `IMPORTER` doesn't import.
const UNASKED: &[u8] = b"module C where { y = 'c' }";

/// Returns whether the check of `IMPORTER` refuses the interface of a module that it doesn't import.
fn refuses_interfaces(alloc: Global) -> Result<bool, Fail> {
    let unasked = outcome_of(alloc, UNASKED)?;
    let Verdict::Good(interface) = unasked.verdict() else {
        return Err(Fail::from("a faulty module"));
    };
    let mut interfaces = Vec::new(alloc);
    interfaces.push(Arc::try_clone(interface)?)?;
    match check_module(alloc, &module_of(alloc, IMPORTER)?, &interfaces) {
        Ok(_) => Ok(false),
        Err(CheckFault::Imports) => Ok(true),
        Err(CheckFault::Memory) => Err(Fail::from(NO_MEMORY)),
    }
}

#[test]
fn other_interfaces(rt: HostRuntime) -> Result<(), Fail> {
    assert!(rt; refuses_interfaces(rt.alloc())?);
    Ok(())
}

/// Four workers, with room for nine calls each.
const CREW: Crew = Crew {
    workers: 4,
    room: 9,
};

/// Returns the turn that a worker's claim gets.
fn claimed<L: Ledger + Naming, R: Wait>(
    rt: &R,
    shared: &Shared<L, &R>,
    pass: &mut Pass<L>,
) -> Result<Turn, Fail> {
    if pass.room() == 0 {
        return Err(Fail::from("no room"));
    }
    Ok(shared.claim(rt, pass))
}

/// Returns whether a worker finds the interface of module 1.
fn finds<L: Ledger + Naming>(pass: &mut Pass<L>) -> Result<bool, Fail> {
    if pass.room() == 0 {
        return Err(Fail::from("no room"));
    }
    match pass.look(1) {
        Ok(found) => Ok(found.is_some()),
        Err(LookFault::Memory) => Err(Fail::from(NO_MEMORY)),
        Err(LookFault::NoEntry) => Err(Fail::from("no look")),
    }
}

/// Publishes a module, given by its number and source.
fn publishes<L: Ledger + Naming, R: AllocGlobal + Wait>(
    rt: &R,
    shared: &Shared<L, &R>,
    pass: &mut Pass<L>,
    number: usize,
    source: &[u8],
) -> Result<(), Fail> {
    let outcome = outcome_of(rt.alloc(), source)?;
    if !outcome.is_good() || pass.room() == 0 {
        return Err(Fail::from("faulty, or no room"));
    }
    match shared.publish(rt, pass, number, outcome) {
        Ok(()) => Ok(()),
        Err((Refusal::Memory, _)) => Err(Fail::from(NO_MEMORY)),
        Err(_) => Err(Fail::from("the publication is refused")),
    }
}

/// The first worker claims and publishes module 1. The second looks it up before and after that, claims module 0, and looks again. Returns
/// whether it found the interface as often as expected.
fn looks_on<L: Ledger + Naming, R: AllocGlobal + Wait>(
    rt: &R,
    shared: &Shared<L, &R>,
    passes: &mut [Pass<L>],
) -> Result<bool, Fail> {
    let [first, second, _, _] = passes else {
        return Err(Fail::from("other passes"));
    };
    let job = claimed(rt, shared, first)?;
    let early = finds(second)?;
    publishes(rt, shared, first, 1, IMPORTED)?;
    let found = finds(second)?;
    let next = claimed(rt, shared, second)?;
    let again = finds(second)?;
    Ok(job == Turn::Job(1) && !early && found && next == Turn::Job(0) && again)
}

/// Four modules without imports.
const FOUR_MODULES: [&[u8]; 4] = [
    b"module A where { x = 1 }",
    b"module B where { x = 1 }",
    b"module C where { x = 1 }",
    b"module D where { x = 1 }",
];

/// Returns whether each worker gets the module with its own number.
fn all_claim<L: Ledger + Naming, R: Wait>(
    rt: &R,
    shared: &Shared<L, &R>,
    passes: &mut [Pass<L>],
) -> Result<bool, Fail> {
    for pass in passes {
        let number = pass.worker();
        if claimed(rt, shared, pass)? != Turn::Job(number) {
            return Ok(false);
        }
    }
    Ok(true)
}

/// Returns whether each worker's claim returns `Done`.
fn all_done<L: Ledger + Naming, R: Wait>(
    rt: &R,
    shared: &Shared<L, &R>,
    passes: &mut [Pass<L>],
) -> Result<bool, Fail> {
    for pass in passes {
        if claimed(rt, shared, pass)? != Turn::Done {
            return Ok(false);
        }
    }
    Ok(true)
}

/// Returns whether a worker's stop is the first.
fn stops<L: Ledger + Naming, R: Wait>(
    rt: &R,
    shared: &Shared<L, &R>,
    pass: &mut Pass<L>,
) -> Result<bool, Fail> {
    if pass.room() == 0 {
        return Err(Fail::from("no room"));
    }
    Ok(shared.stop(rt, pass))
}

/// Four workers claim a module each. The third stops the build; the others publish theirs, and then get `Done`.
fn stops_between<L: Ledger + Naming, R: AllocGlobal + Wait>(
    rt: &R,
    shared: &Shared<L, &R>,
    passes: &mut [Pass<L>],
) -> Result<bool, Fail> {
    if !all_claim(rt, shared, passes)? {
        return Ok(false);
    }
    let [first, second, third, last] = passes else {
        return Err(Fail::from("other passes"));
    };
    if !stops(rt, shared, third)? {
        return Ok(false);
    }
    publishes(rt, shared, first, 0, FOUR_MODULES[0])?;
    publishes(rt, shared, second, 1, FOUR_MODULES[1])?;
    publishes(rt, shared, last, 3, FOUR_MODULES[3])?;
    all_done(rt, shared, passes)
}

/// What the workers of a test do.
#[derive(Clone, Copy)]
enum Script {
    LookOn,
    StopBetween,
}

/// The result of a script: the store, the places of the second worker's calls in the journal, and whether each call had the right reply.
#[derive(Drop)]
struct Played {
    store: Store,
    places: Vec<usize>,
    is_right: bool,
}

/// Returns the places of the second worker's calls in the journal.
fn places_of<L: Ledger + Naming>(
    alloc: Global,
    passes: Vec<Pass<L>>,
) -> Result<Vec<usize>, AllocError> {
    let mut places = Vec::new(alloc);
    for pass in passes {
        let (record, _share) = pass.into_record();
        if record.worker == 1 {
            for call in &record.calls {
                places.push(call.at)?;
            }
        }
    }
    Ok(places)
}

/// Runs a script on a new store.
fn play<L: Ledger + Naming, R: AllocGlobal + Wait>(
    rt: &R,
    store: Store,
    brands: Brands,
    script: Script,
) -> Result<Played, Fail>
    requires brand { (brands.blank.name ≡ L.name) × (brands.blank.parts ≡ L.parts) × (brands.blank.parts ≡ 4) }
    requires list { brands.opened.seen.book ≡ L.book }
    requires table { brands.unnamed.seat.table_id ≡ L.table }
    requires subjects { store.modules ≡ L.modules }
    requires plan { store.given.imports ≡ L.plan }
    requires empty { store.journal ≡ [] }
{
    let (shared, mut passes) = Shared::<L, &R>::new(rt.alloc(), rt, store, CREW, brands)?;
    let is_right = match script {
        Script::LookOn => looks_on(rt, &shared, &mut passes)?,
        Script::StopBetween => stops_between(rt, &shared, &mut passes)?,
    };
    let (store, _book) = shared.into_store();
    let places = places_of(rt.alloc(), passes)?;
    Ok(Played {
        store,
        places,
        is_right,
    })
}

/// Returns the ghost tokens that name a build by four workers.
pub(crate) fn brands(alloc: Global) -> Result<Brands, AllocError>
    ensures parts { IfOk result (λ b. b.blank.parts ≡ 4) }
{
    let unnamed = Unnamed::new(alloc)?;
    Ok(Brands {
        blank: Blank::new(4),
        opened: Opened::new(),
        unnamed,
    })
}

#[test]
fn looks_see_more(rt: HostRuntime) -> Result<(), Fail> {
    let store = store_of(rt.alloc(), &[IMPORTER, IMPORTED])?;
    let played = play::<Brand, HostRuntime>(&rt, store, brands(rt.alloc())?, Script::LookOn)?;
    assert!(rt; played.is_right);
    assert!(rt; played.places.as_slice() == [0, 2, 2, 3].as_slice());
    Ok(())
}

/// The journal of the second script: four claims, a stop, and three publications.
const STOPPED: [Entry; 8] = [
    Entry::Claim {
        worker: 0,
        module: 0,
    },
    Entry::Claim {
        worker: 1,
        module: 1,
    },
    Entry::Claim {
        worker: 2,
        module: 2,
    },
    Entry::Claim {
        worker: 3,
        module: 3,
    },
    Entry::Stop { worker: 2 },
    Entry::Publish {
        worker: 0,
        module: 0,
    },
    Entry::Publish {
        worker: 1,
        module: 1,
    },
    Entry::Publish {
        worker: 3,
        module: 3,
    },
];

/// Returns whether the worker with a module's number has still claimed it.
fn is_claimed(store: &Store, number: usize) -> bool {
    number < store.modules().len() && store.status(number) == Status::Claimed(number)
}

#[test]
fn claimed_modules_end_behind_a_stop(rt: HostRuntime) -> Result<(), Fail> {
    let store = store_of(rt.alloc(), &FOUR_MODULES)?;
    let played = play::<Brand, HostRuntime>(&rt, store, brands(rt.alloc())?, Script::StopBetween)?;
    assert!(rt; played.is_right);
    assert!(rt; played.store.journal() == STOPPED.as_slice());
    assert!(rt; is_claimed(&played.store, 2));
    Ok(())
}
