//! Builds after earlier ones are the builds that they would be alone.
use crate::builds::{SKIPPED, TWO};
use hm_build::{Earlier, Finished, Open, build, build_after, journal_text, report};
use std::alloc::{AllocError, Global};
use std::sync::Wait;
use std::test::Fail;
use std::thread::Threads;

/// The texts of an earlier build, and those of the next one.
struct Row {
    what: &'static str,
    old: &'static [&'static [u8]],
    new: &'static [&'static [u8]],
}

const ROWS: [Row; 10] = [
    Row {
        what: "nothing changed",
        old: &[TWO, b"module C where { import A ; z = x }"],
        new: &[TWO, b"module C where { import A ; z = x }"],
    },
    Row {
        what: "a changed body",
        old: &[
            b"module A where { x = 1 }",
            b"module B where { import A ; y = x }",
        ],
        new: &[
            b"module A where { x = 2 }",
            b"module B where { import A ; y = x }",
        ],
    },
    Row {
        what: "a changed interface",
        old: &[
            b"module A where { x = 1 }",
            b"module B where { import A ; y = x }",
        ],
        new: &[
            b"module A where { x = 'c' }",
            b"module B where { import A ; y = x }",
        ],
    },
    Row {
        what: "an interface that makes an importer faulty",
        old: &[
            b"module A where { x = 1 }",
            b"module B where { import A ; y = x : [2] }",
        ],
        new: &[
            b"module A where { x = 'c' }",
            b"module B where { import A ; y = x : [2] }",
        ],
    },
    Row {
        what: "an interface that changes behind a module",
        old: &[
            b"module A where { x = 1 }",
            b"module B (module A) where { import A }",
            b"module C where { import B ; y = x }",
        ],
        new: &[
            b"module A where { x = 'c' }",
            b"module B (module A) where { import A }",
            b"module C where { import B ; y = x }",
        ],
    },
    Row {
        what: "a module that becomes faulty",
        old: &[
            b"module A where { x = 1 }",
            b"module B where { import A ; y = x }",
        ],
        new: &[
            b"module A where { x = z }",
            b"module B where { import A ; y = x }",
        ],
    },
    Row {
        what: "faulty and skipped modules",
        old: &[SKIPPED, b"module E where { e = 1 }"],
        new: &[SKIPPED, b"module E where { e = 2 }"],
    },
    Row {
        what: "a source in front",
        old: &[
            b"module A where { x = 1 }",
            b"module B where { import A ; y = x }",
        ],
        new: &[
            b"module C where { z = 1 }",
            b"module A where { x = 1 }",
            b"module B where { import A ; y = x }",
        ],
    },
    Row {
        what: "another module of that name",
        old: &[
            b"module A where { x = 1 }",
            b"module B where { import A ; y = x }",
        ],
        new: &[
            b"module B where { x = 1 }",
            b"module A where { import B ; y = x }",
        ],
    },
    Row {
        what: "two modules in a source that others move",
        old: &[b"module A where { x = 1 }", TWO_MORE],
        new: &[TWO_MORE, b"module A where { x = 'c' }"],
    },
];

/// Two modules of one source, which import a third.
const TWO_MORE: &[u8] = b"module B where { import A ; y = x }\nmodule C where { import B ; z = y }";

/// Returns copies of texts.
fn copied(alloc: Global, texts: &[&[u8]]) -> Result<Vec<Vec<u8>>, AllocError> {
    let mut made = Vec::new(alloc);
    for text in texts {
        made.push(Vec::from_slice(alloc, *text)?)?;
    }
    Ok(made)
}

/// Returns the report and the journal of a build.
fn texts_of(alloc: Global, finished: &Finished) -> Result<(String, String), AllocError> {
    Ok((report(alloc, finished)?, journal_text(alloc, finished)?))
}

/// Returns the texts of a build by one worker.
fn built_alone<T: Threads + Wait + Sync>(
    rt: &T,
    alloc: Global,
    texts: &[&[u8]],
) -> Result<(String, String), Fail> {
    let finished = build(rt, alloc, copied(alloc, texts)?, 1, &Open).map_err(|_| "no build")?;
    Ok(texts_of(alloc, &finished)?)
}

/// Returns the texts of a build by one worker after that of other texts.
fn built_after<T: Threads + Wait + Sync>(
    rt: &T,
    alloc: Global,
    old: &[&[u8]],
    new: &[&[u8]],
) -> Result<(String, String), Fail> {
    let held = copied(alloc, old)?;
    let first = build_after(rt, alloc, &held, &[], 1).map_err(|_| "no first build")?;
    let earlier = [Earlier {
        texts: held.as_slice(),
        build: &first,
    }];
    let texts = copied(alloc, new)?;
    let next = build_after(rt, alloc, &texts, &earlier, 1).map_err(|_| "no build after")?;
    Ok(texts_of(alloc, &next)?)
}

#[test]
fn builds_after_others_are_those_alone(rt: HostRuntime) -> Result<(), Fail> {
    let alloc = rt.alloc();
    for row in ROWS.as_slice() {
        if built_after(&rt, alloc, row.old, row.new)? != built_alone(&rt, alloc, row.new)? {
            return Err(Fail::from(row.what));
        }
    }
    Ok(())
}
