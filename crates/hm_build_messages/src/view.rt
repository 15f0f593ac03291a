//! What the messages of a build are made from.

use hm_build_reports::Settled;
use hm_graph::Plan;
use hm_messages::{MessageFormat, Page, Pages};
use hm_messages_details::Site;
use hm_messages_trials::Question;
use hm_names::Fault;
use hm_store::Store;
use hm_syntax::Module;
use hm_types_prelude::SharedPrelude;
use hm_uses_declarations::Use;
use std::sync::Arc;

/// The data for messages: the sources as they are shown, the modules with their sources, and the status of each module.
#[derive(Clone, Copy)]
pub struct BuildView<'t, 'p, 'm> {
    pub pages: &'t Pages<'p>,
    /// For each module the number of its source.
    pub origins: &'t [usize],
    pub modules: &'m [Arc<Module>],
    pub plan: &'m Plan,
    pub settled: &'t [Settled<'m>],
    pub store: &'m Store,
    pub prelude: &'t SharedPrelude,
}

/// A faulty module: its number, that of the source that spells it, and its faults.
#[derive(Clone, Copy)]
pub(crate) struct Faulty<'f> {
    pub number: usize,
    pub source: usize,
    pub faults: &'f [Fault],
}

/// A module with faults of names: the build that it is in, the page of its source, and whether messages have no notes of other modules.
#[derive(Clone, Copy)]
pub(crate) struct NameFaults<'r, 'f, 't, 'p, 'm> {
    pub view: &'r BuildView<'t, 'p, 'm>,
    pub page: &'r Page<'p>,
    pub faulty: Faulty<'f>,
    pub is_quiet: bool,
}

/// Such a module with its scope and its tables, and the names in its declarations.
#[derive(Clone, Copy)]
pub(crate) struct Searched<'r, 'f, 't, 'p, 'm, 's, 'e> {
    pub named: &'r NameFaults<'r, 'f, 't, 'p, 'm>,
    pub site: &'r Site<'r, 's, 'e>,
    pub uses: &'r [Use<'s>],
}

/// A module whose faults are reported: the page of its source, the data of its trials, and its faults.
#[derive(Clone, Copy)]
pub(crate) struct FaultyModule<'f, 'p> {
    pub format: MessageFormat,
    pub page: &'f Page<'p>,
    pub question: &'f Question<'f>,
    pub faults: &'f [Fault],
}
