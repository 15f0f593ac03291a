//! Checks after earlier checks, whose messages are those of checks from nothing.
use hm_service::check;
use hm_service_places::Checked;
use hm_service_sources::{HeldSource, change};
use std::alloc::{AllocError, Global};
use std::sync::Wait;
use std::test::Fail;
use std::thread::Threads;

/// The texts of three sources before a change and after it.
struct Row {
    what: &'static str,
    before: [&'static [u8]; 3],
    after: [&'static [u8]; 3],
}

const TRUTH: &[u8] = b"module A where { x = True }";

const LETTER: &[u8] = b"module A where { x = 'a' }";

const NEGATES: &[u8] = b"module B where { import A ; y = not x }";

const PASSES: &[u8] = b"module C (x) where { import A }";

const NEGATES_PASSED: &[u8] = b"module B where { import C ; y = not x }";

const ROWS: [Row; 18] = [
    Row {
        what: "nothing is changed",
        before: [TRUTH, NEGATES, b""],
        after: [TRUTH, NEGATES, b""],
    },
    Row {
        what: "a body gets a fault",
        before: [TRUTH, NEGATES, b""],
        after: [TRUTH, b"module B where { import A ; y = not 'a' }", b""],
    },
    Row {
        what: "a body is another with the same interface",
        before: [TRUTH, NEGATES, b""],
        after: [b"module A where { x = not False }", NEGATES, b""],
    },
    Row {
        what: "a body is another above a fault",
        before: [TRUTH, b"module B where { import A ; y = not 'a' }", b""],
        after: [
            b"module A where { x = not False }",
            b"module B where { import A ; y = not 'a' }",
            b"",
        ],
    },
    Row {
        what: "an interface has another type",
        before: [TRUTH, NEGATES, b""],
        after: [LETTER, NEGATES, b""],
    },
    Row {
        what: "an interface has no such name any more",
        before: [TRUTH, NEGATES, b""],
        after: [b"module A where { z = True }", NEGATES, b""],
    },
    Row {
        what: "an interface gets a name that makes another ambiguous",
        before: [
            b"module A where { z = True }",
            NEGATES,
            b"module C where { x = True }",
        ],
        after: [
            TRUTH,
            b"module B where { import A ; import C ; y = not x }",
            b"module C where { x = True }",
        ],
    },
    Row {
        what: "an interface that is passed on has another type",
        before: [TRUTH, PASSES, NEGATES_PASSED],
        after: [LETTER, PASSES, NEGATES_PASSED],
    },
    Row {
        what: "a synonym stands for another type",
        before: [
            b"module A where { type T = Bool }",
            b"module B where { import A ; y :: T ; y = True }",
            b"",
        ],
        after: [
            b"module A where { type T = Char }",
            b"module B where { import A ; y :: T ; y = True }",
            b"",
        ],
    },
    Row {
        what: "a module imports another one of the same interface",
        before: [TRUTH, b"module C where { x = True }", NEGATES],
        after: [
            TRUTH,
            b"module C where { x = 'a' }",
            b"module B where { import C ; y = not x }",
        ],
    },
    Row {
        what: "a source is added in front",
        before: [TRUTH, b"module B where { import A ; y = not 'a' }", b""],
        after: [
            b"module C where { z = 'c' }",
            TRUTH,
            b"module B where { import A ; y = not 'a' }",
        ],
    },
    Row {
        what: "two sources change places",
        before: [TRUTH, NEGATES, b"module C where { z = not 'c' }"],
        after: [NEGATES, TRUTH, b"module C where { z = not 'c' }"],
    },
    Row {
        what: "two modules change names",
        before: [TRUTH, b"module C where { x = 'c' }", NEGATES],
        after: [
            b"module C where { x = True }",
            b"module A where { x = 'c' }",
            NEGATES,
        ],
    },
    Row {
        what: "a source can't be read any more",
        before: [TRUTH, NEGATES, b""],
        after: [b"module A where { x = ", NEGATES, b""],
    },
    Row {
        what: "the first of two modules in a source is another",
        before: [
            b"module A where { x = True }\nmodule B where { import A ; y = not x }",
            b"",
            b"",
        ],
        after: [
            b"module A where { x = 'a' }\nmodule B where { import A ; y = not x }",
            b"",
            b"",
        ],
    },
    Row {
        what: "the second of two modules in a source is another",
        before: [
            b"module A where { x = True }\nmodule B where { import A ; y = not x }",
            b"",
            b"",
        ],
        after: [
            b"module A where { x = True }\nmodule B where { import A ; y = not 'a' }",
            b"",
            b"",
        ],
    },
    Row {
        what: "an imported module is missing",
        before: [TRUTH, NEGATES, b"module C where { z = not 'c' }"],
        after: [b"", NEGATES, b"module C where { z = not 'c' }"],
    },
    Row {
        what: "a name is that of two modules",
        before: [TRUTH, NEGATES, b"module C where { x = 'c' }"],
        after: [TRUTH, NEGATES, b"module A where { x = 'c' }"],
    },
];

/// Gives sources these texts.
fn give<T: Threads>(
    rt: &T,
    alloc: Global,
    held: &mut Vec<HeldSource>,
    texts: &[&[u8]],
) -> Result<(), Fail> {
    for number in 0..texts.len() {
        let Some(source) = held.get_mut(number) else {
            return Err(Fail::from("no source"));
        };
        let copy = Vec::from_slice(alloc, texts[number])?;
        change(rt, alloc, source, copy).map_err(|_| "no change")?;
    }
    Ok(())
}

/// Returns three sources without a text.
fn sources(alloc: Global) -> Result<Vec<HeldSource>, AllocError> {
    let mut held = Vec::new(alloc);
    for _ in 0..3 {
        held.push(HeldSource::new(alloc))?;
    }
    Ok(held)
}

/// Returns all messages of a check.
fn messages_of(alloc: Global, checked: &Checked) -> Result<String, AllocError> {
    format!(in alloc;
        "{:?} {:?} {:?} {:?}",
        checked.part, checked.unread, checked.refused, checked.told
    )
}

/// Returns whether these are all messages of a check from nothing.
fn are_from_nothing<T: Threads + Wait + Sync>(
    rt: &T,
    alloc: Global,
    held: &[HeldSource],
    messages: &str,
) -> Result<bool, Fail> {
    let checked = check(rt, alloc, held, &[], 2).map_err(|_| "no check from nothing")?;
    let others = messages_of(alloc, &checked)?;
    Ok(others.as_str() == messages)
}

/// Returns a check after earlier ones, if its messages are those of a check from nothing.
fn checked_after<T: Threads + Wait + Sync>(
    rt: &T,
    alloc: Global,
    held: &[HeldSource],
    earlier: &[&Checked],
) -> Result<Option<Checked>, Fail> {
    let checked = check(rt, alloc, held, earlier, 2).map_err(|_| "no check after others")?;
    let messages = messages_of(alloc, &checked)?;
    if are_from_nothing(rt, alloc, held, messages.as_str())? {
        return Ok(Some(checked));
    }
    Ok(None)
}

/// Returns whether a change back, after these checks, has the messages of a check from nothing.
fn is_same_back<T: Threads + Wait + Sync>(
    rt: &T,
    alloc: Global,
    held: &mut Vec<HeldSource>,
    row: &Row,
    earlier: &[&Checked],
) -> Result<bool, Fail> {
    give(rt, alloc, held, row.before.as_slice())?;
    let back = checked_after(rt, alloc, held.as_slice(), earlier)?;
    Ok(back.is_some())
}

/// Returns whether the change of a row, and the change back, have the messages of checks from nothing.
fn is_same<T: Threads + Wait + Sync>(rt: &T, alloc: Global, row: &Row) -> Result<bool, Fail> {
    let mut held = sources(alloc)?;
    give(rt, alloc, &mut held, row.before.as_slice())?;
    let Some(first) = checked_after(rt, alloc, held.as_slice(), &[])? else {
        return Ok(false);
    };
    give(rt, alloc, &mut held, row.after.as_slice())?;
    let Some(second) = checked_after(rt, alloc, held.as_slice(), &[&first])? else {
        return Ok(false);
    };
    if !is_same_back(rt, alloc, &mut held, row, &[&second, &first])? {
        return Ok(false);
    }
    is_same_back(rt, alloc, &mut held, row, &[&second])
}

#[test]
fn checks_after_others_have_their_messages(rt: HostRuntime) -> Result<(), Fail> {
    let alloc = rt.alloc();
    for row in ROWS.as_slice() {
        if !is_same(&rt, alloc, row)? {
            return Err(Fail::from(row.what));
        }
    }
    Ok(())
}
