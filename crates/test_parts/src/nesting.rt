//! Bounds on the nesting of sources, counted by hand.

use hm_run_sources::Nesting;
use std::alloc::{AllocError, Global};

/// A source, and its bound: its lexemes between separators, plus those of its deepest brackets.
const ROWS: [(&str, usize); 15] = [
    ("", 0),
    ("module A where { }", 4),
    ("module A where { x = 1 }", 7),
    ("module A where { x = 1 ; f a b c = a ; y = 2 }", 10),
    ("module A where { x = [1, 2, 3, 4, 5, 6, 7, 8, 9] }", 8),
    ("module A where { x = (f 1, [f 1 2 3]) }", 12),
    ("module A where { f x = x where { y = 1 ; z = x } }", 13),
    ("module A where { x = 1 }\nmodule B where { x = 1 }", 7),
    // Comments and literals have no brackets or separators.
    (
        "module A where { x = 1 {- ( {- f f f -} ; -} -- f ( f\n }",
        7,
    ),
    (
        "module A where { x = f \"( ; \\\" f\\ \\\" '\"' ')' 'x' }",
        11,
    ),
    ("module A where { x' = f' '(' '\\'' '\\\\' ';' }", 11),
    ("module A where { x = f 0x1F'(' 0o17'(' 0'(' }", 13),
    ("module A where { x = f 0g'h'(1)0x0g'h'(1) }", 14),
    ("module A where { f :: a -> b ; f x | x = \\y->y }", 11),
    ("module A where { data T = C0 | C1 | C2 a b | C3 }", 8),
];

/// Appended to each source `TIMES` times, because a source of at most 8,192 bytes isn't read.
const BLANKS: [u8; 64] = [b' '; 64];

/// How many times blanks are appended.
const TIMES: usize = 129;

/// Adds a source to others.
fn add(sources: &mut Vec<Vec<u8>>, alloc: Global, text: &str) -> Result<(), AllocError> {
    let mut source = Vec::from_slice(alloc, text.as_bytes())?;
    for _ in 0..TIMES {
        source.extend_from_slice(&BLANKS)?;
    }
    sources.push(source)?;
    Ok(())
}

#[test]
fn levels(rt: HostRuntime) -> Result<(), AllocError> {
    for (text, levels) in ROWS {
        let mut sources = Vec::new(rt.alloc());
        add(&mut sources, rt.alloc(), text)?;
        assert_eq!(rt; Nesting::of(sources.as_slice()).levels(), levels);
    }
    Ok(())
}

#[test]
fn a_quarter_of_the_bytes_of_a_short_source(rt: HostRuntime) -> Result<(), AllocError> {
    let mut sources = Vec::new(rt.alloc());
    sources.push(Vec::from_slice(rt.alloc(), b"((((((((")?)?;
    sources.push(Vec::from_slice(rt.alloc(), b"{ } { }")?)?;
    assert_eq!(rt; Nesting::of(sources.as_slice()).levels(), 2);
    Ok(())
}

#[test]
fn the_deepest_of_several(rt: HostRuntime) -> Result<(), AllocError> {
    let mut sources = Vec::new(rt.alloc());
    for (text, _) in ROWS {
        add(&mut sources, rt.alloc(), text)?;
    }
    let nesting = Nesting::of(sources.as_slice());
    assert_eq!(rt; nesting.levels(), 14);
    assert_eq!(rt; nesting.longest(), 8312);
    assert!(rt; nesting.stack_size() < nesting.worker_stack_size());
    Ok(())
}
