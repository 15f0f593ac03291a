//! The program `hmc_lsp`, a server of the Language Server Protocol on standard input and standard output.
//!
//! Its loop is [`serve`]. Here are the files of the client's folders, and the thread that the loop runs on.
#![tactic(auto)]

mod disk;
mod folders;

ghost use Rattle.std.specs.Prelude.{IfOk};
ghost use Rattle.hm_lsp_server.specs.Servers.{IsOrderly};

use crate::folders::{Folders, HostDisk};
use core::thread::Stack;
use hm_lsp_server::Server;
use hm_lsp_serving::{Client, ServeFault, Serving, serve};
use std::alloc::AllocError;
use std::process::ExitCode;
use std::sync::Wait;
use std::thread::{Promise, Threads};
use std::{env, thread};

// Why: docs/DECISIONS.md, "The server's stack".
/// The bytes of stack for the server.
const STACK: usize = 1 << 30;

/// Returns the folders of the command line. `FOLDER` is the only one. With `--start FOLDER` or without words, those that the client opens count.
/// `FOLDER`, or the folder where the server starts, is for a client that opens none.
fn named_folders(host: &HostRuntime) -> Result<Folders, AllocError> {
    let Ok(words) = env::args(host) else {
        return Folders::new(host, None, true);
    };
    let Ok(mut words) = words.collect(host.alloc()) else {
        return Err(AllocError);
    };
    let words: &mut Vec<String> = &mut words;
    let are_open = words.len() != 2;
    let named = if words.len() < 2 { None } else { words.pop() };
    Folders::new(host, named, are_open)
}

/// Returns a server of the folders' files. Files that the client's folders may replace aren't read before it has named these.
fn started<'a, T: Threads>(
    rt: &T,
    host: &'a HostRuntime,
) -> Result<Serving<HostDisk<'a>>, AllocError>
    ensures { IfOk result (λ serving. IsOrderly serving.server) }
{
    let alloc = host.alloc();
    let folders = named_folders(host)?;
    let files = if folders.are_open() {
        Vec::new(alloc)
    } else {
        folders.sources(host)?
    };
    let server = Server::new(rt, alloc, files)?;
    let disk = HostDisk { host, folders };
    Ok(Serving {
        alloc,
        server,
        disk,
    })
}

/// Serves one client until it ends the server or the input ends. Returns the exit status, or `None` if the input has ended.
fn run<T: Threads + Wait + Sync>(rt: &T, host: &HostRuntime) -> Result<Option<u8>, ServeFault> {
    let Ok(serving) = started(rt, host) else {
        return Err(ServeFault::Memory);
    };
    let mut client = Client {
        reader: host.stdin(),
        writer: host.stdout(),
    };
    serve(rt, serving, &mut client)
}

/// What the thread of the server promises of the exit status: nothing.
#[derive(Clone, Copy)]
struct Served;

impl Promise<Result<Option<u8>, ServeFault>> for Served {
    ghost kept_by = { λ p r. Unit {0} };
}

/// Serves one client on a thread with a large stack.
fn run_on_thread<T: Threads + Wait + Sync>(
    rt: &T,
    host: &HostRuntime,
) -> Result<Option<u8>, ServeFault> {
    thread::scope(
        thread::scope_env(),
        rt,
        |scope| -> Result<Option<u8>, ServeFault> {
            let work = move || { run(rt, host) };
            match Stack::new()
                .stack_size(STACK)
                .spawn_scoped_with(scope, Served, work)
            {
                Ok(server) => server.join(rt),
                Err(_) => Err(ServeFault::Memory),
            }
        },
    )
}

fn main(rt: HostRuntime) -> ExitCode {
    match run_on_thread(&rt, &rt) {
        Ok(Some(status)) => ExitCode::from(status),
        Ok(None) | Err(ServeFault::Read) => ExitCode::from(1),
        Err(ServeFault::Memory) => ExitCode::from(3),
        Err(ServeFault::Write) => ExitCode::from(4),
    }
}
