//! The folders that the first message of a client opens, and the sources that it lists.
use hm_lsp_session::opened_by;
use std::alloc::{AllocError, Global};

/// A body, and what it opens: the folders, then `|` and the sources, or `-` if it lists none. A body that is no request `initialize` opens nothing.
struct Row {
    body: &'static str,
    wanted: Option<&'static str>,
}

const ROWS: [Row; 8] = [
    Row {
        body: "{\"id\":1,\"method\":\"initialize\",\"params\":{\"workspaceFolders\":[{\"uri\":\"a\",\"name\":\"A\"},{\"name\":\"N\"},{\"uri\":\"b\"}],\"rootUri\":\"c\"}}",
        wanted: Some("a b |-"),
    },
    Row {
        body: "{\"id\":1,\"method\":\"initialize\",\"params\":{\"workspaceFolders\":null,\"rootUri\":\"c\"}}",
        wanted: Some("c |-"),
    },
    Row {
        body: "{\"id\":1,\"method\":\"initialize\",\"params\":{\"workspaceFolders\":[],\"rootUri\":\"c\"}}",
        wanted: Some("|-"),
    },
    Row {
        body: "{\"id\":1,\"method\":\"initialize\"}",
        wanted: Some("|-"),
    },
    Row {
        body: "{\"id\":\"i\",\"method\":\"initialize\",\"params\":{\"rootUri\":null,\"initializationOptions\":{\"sources\":[\"x\",1,\"y\"]}}}",
        wanted: Some("|x y "),
    },
    Row {
        body: "{\"method\":\"initialize\",\"params\":{\"rootUri\":\"c\"}}",
        wanted: None,
    },
    Row {
        body: "{\"id\":1,\"method\":\"shutdown\"}",
        wanted: None,
    },
    Row {
        body: "{{{",
        wanted: None,
    },
];

/// Appends names, each with a space after it.
fn add_names(text: &mut String, names: &[String]) -> Result<(), AllocError> {
    for name in names {
        text.push_str(name.as_str())?;
        text.push(' ')?;
    }
    Ok(())
}

/// Returns whether a body opens what its row says.
fn is_as_wanted(alloc: Global, row: &Row) -> Result<bool, AllocError> {
    let Some(opened) = opened_by(alloc, row.body.as_bytes())? else {
        return Ok(row.wanted.is_none());
    };
    let mut text = String::new(alloc);
    add_names(&mut text, &opened.folders)?;
    text.push('|')?;
    match &opened.sources {
        Some(names) => add_names(&mut text, names)?,
        None => text.push('-')?,
    }
    Ok(row.wanted == Some(text.as_str()))
}

/// Returns whether all rows are as wanted.
fn all_as_wanted(alloc: Global) -> Result<bool, AllocError> {
    for row in ROWS.iter() {
        if !is_as_wanted(alloc, row)? {
            return Ok(false);
        }
    }
    Ok(true)
}

#[test]
fn opened_folders(rt: HostRuntime) {
    match all_as_wanted(rt.alloc()) {
        Ok(good) => assert!(rt; good),
        Err(AllocError) => {}
    }
}
