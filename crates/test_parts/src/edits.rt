//! Texts with edits.
use hm_lex::Place;
use hm_service_candidates::edited_text;
use hm_service_messages::{Columns, Edit, Position};
use std::alloc::{AllocError, Global};

const TEXT: &[u8] = b"f x y\ng\n";

/// A text in place of what is between two places, each a line and a column.
#[derive(Clone, Copy)]
struct Change {
    start: [usize; 2],
    end: [usize; 2],
    text: &'static str,
}

/// Returns a position in a line of ASCII.
fn position(at: [usize; 2]) -> Position {
    let column = at[1];
    Position {
        line: at[0],
        columns: Columns {
            bytes: column,
            characters: column,
            utf16: column,
        },
    }
}

/// Returns whether these edits make the wanted text, and where the last one ends in it.
fn makes(
    alloc: Global,
    changes: &[Change],
    wanted: Option<&str>,
    end: [u32; 2],
) -> Result<bool, AllocError> {
    let mut edits = Vec::new(alloc);
    for change in changes {
        edits.push(Edit {
            start: position(change.start),
            end: position(change.end),
            text: String::from_str(alloc, change.text)?,
            is_checked: true,
        })?;
    }
    let Some(made) = edited_text(alloc, TEXT, &edits)? else {
        return Ok(wanted.is_none());
    };
    let end = Place {
        line: end[0],
        column: end[1],
    };
    match wanted {
        Some(text) => Ok(made.text.as_slice() == text.as_bytes() && made.new_end == end),
        None => Ok(false),
    }
}

/// Returns whether all rows are as wanted.
fn all_as_wanted(alloc: Global) -> Result<bool, AllocError> {
    let inside = Change {
        start: [1, 3],
        end: [1, 4],
        text: "zz",
    };
    let first = Change {
        start: [1, 1],
        end: [1, 1],
        text: "a ",
    };
    let last = Change {
        start: [2, 1],
        end: [2, 2],
        text: "h\nk",
    };
    let outside = Change {
        start: [2, 1],
        end: [5, 1],
        text: "",
    };
    let one = makes(alloc, &[inside], Some("f zz y\ng\n"), [1, 5])?;
    let two = makes(alloc, &[first, last], Some("a f x y\nh\nk\n"), [3, 2])?;
    let reversed = makes(alloc, &[last, first], None, [0, 0])?;
    let beyond = makes(alloc, &[outside], None, [0, 0])?;
    let none = makes(alloc, &[], None, [0, 0])?;
    Ok(one && two && reversed && beyond && none)
}

#[test]
fn edits_are_made(rt: HostRuntime) {
    match all_as_wanted(rt.alloc()) {
        Ok(good) => assert!(rt; good),
        Err(AllocError) => {}
    }
}
