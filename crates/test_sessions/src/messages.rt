//! Messages of one session, in order, and what each leads to.
use hm_lsp_session::{Cancelled, Outcome, Session};
use std::alloc::{AllocError, Global};

/// A reply without an error, a request for the service, a change, nothing, the beginning, and an end with status 0.
const REPLY: i64 = 0;

const ASK: i64 = 1;

const CHANGED: i64 = 2;

const NOTHING: i64 = 3;

const BEGUN: i64 = 4;

const ENDED: i64 = 10;

/// Files are named: this number and how many.
const FILES: i64 = 20;

/// A body, and what it leads to: one of these numbers, or the code of an error.
struct Row {
    body: &'static str,
    wanted: i64,
}

// The codes are those of JSON-RPC 2.0, section 5.1, and of the Language Server Protocol 3.17, "Error Codes".
const ROWS: [Row; 31] = [
    Row {
        body: "{{{",
        wanted: -32700,
    },
    Row {
        body: "[]",
        wanted: -32600,
    },
    Row {
        body: "{\"id\":1}",
        wanted: -32600,
    },
    Row {
        body: "{\"id\":1,\"result\":null}",
        wanted: NOTHING,
    },
    Row {
        body: "{\"id\":2,\"method\":\"textDocument/hover\"}",
        wanted: -32002,
    },
    Row {
        body: "{\"method\":\"textDocument/didOpen\",\"params\":{\"textDocument\":{\"uri\":\"a\",\"text\":\"x\"}}}",
        wanted: NOTHING,
    },
    Row {
        body: "{\"method\":\"workspace/didChangeWatchedFiles\",\"params\":{\"changes\":[{\"uri\":\"b\",\"type\":1}]}}",
        wanted: NOTHING,
    },
    Row {
        body: "{\"id\":\"i\",\"method\":\"initialize\",\"params\":{\"capabilities\":{}}}",
        wanted: REPLY,
    },
    Row {
        body: "{\"id\":4,\"method\":\"initialize\",\"params\":{}}",
        wanted: -32600,
    },
    Row {
        body: "{\"method\":\"initialized\",\"params\":{}}",
        wanted: BEGUN,
    },
    Row {
        body: "{\"id\":5,\"method\":\"textDocument/foo\"}",
        wanted: -32601,
    },
    Row {
        body: "{\"method\":\"$/cancelRequest\",\"params\":{\"id\":1}}",
        wanted: NOTHING,
    },
    Row {
        body: "{\"method\":\"textDocument/didOpen\",\"params\":{\"textDocument\":{\"uri\":\"a\",\"version\":1,\"text\":\"one\\ntwo\"}}}",
        wanted: CHANGED,
    },
    Row {
        body: "{\"method\":\"textDocument/didChange\",\"params\":{\"textDocument\":{\"uri\":\"b\"},\"contentChanges\":[{\"text\":\"x\"}]}}",
        wanted: NOTHING,
    },
    Row {
        body: "{\"method\":\"textDocument/didChange\",\"params\":{\"textDocument\":{\"uri\":\"a\"},\"contentChanges\":[{\"range\":{\"start\":{\"line\":1,\"character\":1},\"end\":{\"line\":0,\"character\":0}},\"text\":\"x\"}]}}",
        wanted: NOTHING,
    },
    Row {
        body: "{\"method\":\"textDocument/didChange\",\"params\":{\"textDocument\":{\"uri\":\"a\"},\"contentChanges\":[{\"range\":{\"start\":{\"line\":0}},\"text\":\"x\"}]}}",
        wanted: NOTHING,
    },
    Row {
        body: "{\"method\":\"textDocument/didChange\",\"params\":{\"textDocument\":{\"uri\":\"a\"},\"contentChanges\":[{\"range\":{\"start\":{\"line\":0,\"character\":1},\"end\":{\"line\":1,\"character\":1}},\"text\":\"-\"},{\"range\":{\"start\":{\"line\":0,\"character\":0},\"end\":{\"line\":0,\"character\":0}},\"text\":\"+\"}]}}",
        wanted: CHANGED,
    },
    Row {
        body: "{\"id\":6,\"method\":\"textDocument/hover\"}",
        wanted: ASK,
    },
    Row {
        body: "{\"id\":7,\"method\":\"textDocument/definition\"}",
        wanted: ASK,
    },
    Row {
        body: "{\"id\":8,\"method\":\"textDocument/codeAction\"}",
        wanted: ASK,
    },
    Row {
        body: "{\"id\":12,\"method\":\"textDocument/prepareRename\"}",
        wanted: ASK,
    },
    Row {
        body: "{\"id\":14,\"method\":\"textDocument/completion\"}",
        wanted: ASK,
    },
    Row {
        body: "{\"method\":\"workspace/didChangeWatchedFiles\",\"params\":{\"changes\":[{\"uri\":\"b\",\"type\":1},{\"type\":2},{\"uri\":\"c\",\"type\":3}]}}",
        wanted: FILES + 2,
    },
    Row {
        body: "{\"method\":\"workspace/didChangeWatchedFiles\",\"params\":{}}",
        wanted: NOTHING,
    },
    Row {
        body: "{\"id\":13,\"method\":\"workspace/didChangeWatchedFiles\",\"params\":{\"changes\":[]}}",
        wanted: -32601,
    },
    Row {
        body: "{\"id\":9,\"method\":\"textDocument/didClose\",\"params\":{\"textDocument\":{\"uri\":\"a\"}}}",
        wanted: -32601,
    },
    Row {
        body: "{\"id\":10,\"method\":\"shutdown\"}",
        wanted: REPLY,
    },
    Row {
        body: "{\"id\":11,\"method\":\"shutdown\"}",
        wanted: -32600,
    },
    Row {
        body: "{\"method\":\"textDocument/didClose\",\"params\":{\"textDocument\":{\"uri\":\"a\"}}}",
        wanted: NOTHING,
    },
    Row {
        body: "{\"method\":\"workspace/didChangeWatchedFiles\",\"params\":{\"changes\":[]}}",
        wanted: NOTHING,
    },
    Row {
        body: "{\"method\":\"exit\"}",
        wanted: ENDED,
    },
];

/// The text of the document after all rows.
const TEXT: &[u8] = b"+o-wo";

/// Returns what an outcome is, as a number of a row.
fn number_of(outcome: &Outcome) -> i64 {
    match outcome {
        Outcome::Reply(reply) => match reply.pointer("/error/code") {
            Some(code) => code.as_i64().unwrap_or(REPLY),
            None => REPLY,
        },
        Outcome::Ask(_, _) => ASK,
        Outcome::Changed => CHANGED,
        Outcome::Begun => BEGUN,
        Outcome::Files(uris) => FILES.saturating_add(uris.len() as i64),
        Outcome::Nothing => NOTHING,
        Outcome::Ended(status) => ENDED + *status as i64,
    }
}

/// Returns whether a body leads to what its row says.
fn is_as_wanted(session: &mut Session, row: &Row) -> Result<bool, AllocError> {
    let outcome = session.take(row.body.as_bytes())?;
    Ok(number_of(&outcome) == row.wanted)
}

/// Returns whether all rows are as wanted, and the text at the end.
fn all_as_wanted(alloc: Global) -> Result<bool, AllocError> {
    let mut session = Session::new(alloc);
    for row in ROWS.iter() {
        if !is_as_wanted(&mut session, row)? {
            return Ok(false);
        }
    }
    Ok(session.documents().text_of("a") == Some(TEXT))
}

#[test]
fn messages_in_order(rt: HostRuntime) {
    match all_as_wanted(rt.alloc()) {
        Ok(good) => assert!(rt; good),
        Err(AllocError) => {}
    }
}

/// Returns whether the one request that is cancelled has a reply, and others have none.
fn is_one_cancelled(alloc: Global) -> Result<bool, AllocError> {
    let mut cancelled = Cancelled::new(alloc);
    cancelled.note(b"{\"method\":\"$/cancelRequest\",\"params\":{\"id\":7}}")?;
    cancelled.note(b"{\"id\":8,\"method\":\"textDocument/hover\"}")?;
    let own = cancelled.reply(b"{\"id\":7,\"method\":\"textDocument/hover\"}")?;
    let other = cancelled.reply(b"{\"id\":8,\"method\":\"textDocument/hover\"}")?;
    let text = cancelled.reply(b"{\"id\":\"7\",\"method\":\"textDocument/hover\"}")?;
    let end = cancelled.reply(b"{\"id\":7,\"method\":\"shutdown\"}")?;
    Ok(own.is_some() && other.is_none() && text.is_none() && end.is_none())
}

#[test]
fn cancelled_requests(rt: HostRuntime) {
    match is_one_cancelled(rt.alloc()) {
        Ok(good) => assert!(rt; good),
        Err(AllocError) => {}
    }
}
