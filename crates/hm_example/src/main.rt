//! Embeds the type checker. It checks three modules one by one, each for the interfaces of its imports, and then two of them by a build.
#![tactic(auto)]

use anyhow::Context;
use hm::build::{Finished, Open, build, report};
use hm::check::{Outcome, Verdict, check_module};
use hm::lex::lex;
use hm::parse::{Module, parse};
use hm::scope::{Fault, kind_word};
use hm::types::{Interface, interface_text};
use std::alloc::{AllocError, Global};
use std::sync::{Arc, Wait};
use std::thread::Threads;

/// A module without imports.
const PAIRS: &str = "module Pairs where { data Pair a = Pair a a ; twice x = Pair x x }";

/// A module that imports it.
const USER: &str =
    "module User where { import Pairs ; first (Pair x y) = x ; one = first (twice 1) }";

/// A module that imports it and has a type fault.
const WRONG: &str = "module Wrong where { import Pairs ; self f = f f ; good = twice 'c' }";

/// Returns the module of a source that has just one.
fn module_of(alloc: Global, source: &str) -> Result<Arc<Module>, anyhow::Error> {
    let source = source.as_bytes();
    let tokens = lex(alloc, source)?;
    let mut modules = parse(alloc, source, &tokens)?;
    let module = modules.pop().context("the source has no module")?;
    Ok(Arc::new(alloc, module)?)
}

/// Checks the module of a source for the interfaces of its imports.
fn checked(
    alloc: Global,
    source: &str,
    imports: &[Arc<Interface>],
) -> Result<Outcome, anyhow::Error> {
    let module = module_of(alloc, source)?;
    Ok(check_module(alloc, &module, imports)?)
}

/// Returns the interface of a good module.
fn interface_of(outcome: &Outcome) -> Result<Arc<Interface>, anyhow::Error> {
    let interface = match outcome.verdict() {
        Verdict::Good(interface) => Some(interface.clone()?),
        Verdict::Faulty(_) => None,
    };
    interface.context("the module is faulty")
}

/// Returns the line of a fault: its place, its kind and its name.
fn fault_text(alloc: Global, fault: &Fault) -> Result<String, AllocError> {
    let word = kind_word(fault.kind);
    let name = fault.name.as_str();
    format!(in alloc;
        "{}:{} {word} {name}\n",
        fault.place.line, fault.place.column
    )
}

/// Returns the interface of a good module, or the faults of a faulty one, as a text.
fn outcome_text(alloc: Global, outcome: &Outcome) -> Result<String, AllocError> {
    match outcome.verdict() {
        Verdict::Good(interface) => interface_text(alloc, interface),
        Verdict::Faulty(faults) => {
            let mut text = String::new(alloc);
            for fault in faults.as_slice() {
                text.push_str(fault_text(alloc, fault)?.as_str())?;
            }
            Ok(text)
        }
    }
}

/// Returns the sources in the form that a build takes them.
fn sources_of(alloc: Global, texts: &[&str]) -> Result<Vec<Vec<u8>>, AllocError> {
    let mut sources = Vec::new(alloc);
    for text in texts {
        sources.push(Vec::from_slice(alloc, text.as_bytes())?)?;
    }
    Ok(sources)
}

/// Builds two modules with two workers.
fn built<T: Threads + Wait + Sync>(rt: &T, alloc: Global) -> Result<Finished, anyhow::Error> {
    let sources = sources_of(alloc, &[PAIRS, USER])?;
    Ok(build(rt, alloc, sources, 2, &Open)?)
}

fn main(rt: HostRuntime) -> Result<(), anyhow::Error> {
    let alloc = rt.alloc();
    let pairs = checked(alloc, PAIRS, &[])?;
    let interface = interface_of(&pairs)?;
    let user = checked(alloc, USER, &[interface.clone()?])?;
    let wrong = checked(alloc, WRONG, &[interface])?;
    print!(rt; "{}", outcome_text(alloc, &pairs)?)?;
    print!(rt; "{}", outcome_text(alloc, &user)?)?;
    print!(rt; "{}", outcome_text(alloc, &wrong)?)?;
    let finished = built(&rt, alloc)?;
    print!(rt; "{}", report(alloc, &finished)?)?;
    Ok(())
}
