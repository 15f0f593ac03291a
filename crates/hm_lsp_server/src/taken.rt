//! What follows from a message.
ghost use Rattle.std.specs.Prelude.{◌≡◌, IfOk};
ghost use Rattle.serde_json.specs.Data.{array, item, no_items};
ghost use Rattle.serde_json.specs.View.{view};
ghost use Rattle.hm_lsp_server.specs.Taken.{options_data, registration_data, registrations_data};

use serde_json::{Value, json};
use std::alloc::{AllocError, Global};

/// What follows from a message.
#[derive(Drop)]
pub enum Taken {
    /// Nothing is left to do.
    Nothing,
    /// The reply to it.
    Reply(Value),
    /// A request for the client. The server takes its reply like any message.
    Request(Value),
    /// The files with these URIs may have changed on the disk, and are to be read.
    Files(Vec<String>),
    /// The server ends with this exit status.
    Ended(u8),
}

/// Returns an array of one value.
fn array_of(alloc: Global, value: Value) -> Result<Value, AllocError>
    ensures { IfOk result (λ made. view made ≡ array (item (view value) no_items)) }
{
    let mut values = Vec::new(alloc);
    values.push(value)?;
    Ok(Value::Array(values))
}

/// Returns which files the client watches.
fn watch_options(alloc: Global) -> Result<Value, AllocError>
    ensures { IfOk result (λ made. view made ≡ options_data) }
{
    let watcher = json!(in alloc; {"globPattern": "**/*.hs"})?;
    let watchers = array_of(alloc, watcher)?;
    let watchers = &watchers;
    json!(in alloc; {"watchers": watchers})
}

/// Returns what is registered.
fn registrations(alloc: Global) -> Result<Value, AllocError>
    ensures { IfOk result (λ made. view made ≡ registrations_data) }
{
    let options = watch_options(alloc)?;
    let options = &options;
    let watching =
        json!(in alloc; {"id": "files", "method": "workspace/didChangeWatchedFiles", "registerOptions": options})?;
    let registrations = array_of(alloc, watching)?;
    let registrations = &registrations;
    json!(in alloc; {"registrations": registrations})
}

// Why: docs/DECISIONS.md, "Files beside documents".
/// Returns the request that a client says when a file of a source changes.
pub(crate) fn registration(alloc: Global) -> Result<Value, AllocError>
    ensures { IfOk result (λ made. view made ≡ registration_data) }
{
    let params = registrations(alloc)?;
    let params = &params;
    json!(in alloc; {"id": "files", "jsonrpc": "2.0", "method": "client/registerCapability", "params": params})
}
