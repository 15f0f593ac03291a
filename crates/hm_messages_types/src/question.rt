//! A module of which messages speak.

use hm_types::Interface;
use hm_types_prelude::SharedPrelude;
use std::sync::Arc;

/// A module of which messages speak, and what a check of it needs.
#[derive(Clone, Copy)]
pub struct Question<'a> {
    /// The source of the module.
    pub source: &'a [u8],
    /// The name of the module. The source may spell others too.
    pub name: &'a str,
    /// The interfaces of its imports except Prelude, each once, in order of first import.
    pub imports: &'a [Arc<Interface>],
    /// The interface of Prelude.
    pub prelude: &'a SharedPrelude,
}
