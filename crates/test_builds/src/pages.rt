//! Single messages: file names that aren't UTF-8, standard input, colours, and bytes before a place that aren't in a character.
use hm_lex::Place;
use hm_messages::{MessageFormat, Topic, message, pages_of};
use std::alloc::{AllocError, Global};
use std::test::Fail;

/// Returns the message of an unknown name at a place of the first line of a source, or no text if the place isn't there.
fn told(
    alloc: Global,
    format: MessageFormat,
    names: &[Vec<u8>],
    source: &[u8],
    column: u32,
) -> Result<Vec<u8>, AllocError> {
    let mut sources = Vec::new(alloc);
    sources.push(Vec::from_slice(alloc, source)?)?;
    let pages = pages_of(alloc, format, sources.as_slice(), names, &[])?;
    let place = Place { line: 1, column };
    let topic = Topic::Missing("N", None);
    Ok(message(alloc, format, &pages.items[0], place, &topic)?)
}

#[test]
fn names_of_files_are_escaped(rt: HostRuntime) -> Result<(), Fail> {
    let alloc = rt.alloc();
    let mut names = Vec::new(alloc);
    names.push(Vec::from_slice(alloc, b"\xff\xc3.hs")?)?;
    let text = told(alloc, MessageFormat::Plain, names.as_slice(), b"ab", 2)?;
    assert!(&rt;
        text.as_slice()
            == b"\\xff\\xc3.hs:1:2: error: no module 'N' is given [missing]\nAn import names a module of the set or `Prelude`; there is no other library.\nab\n ^\n".as_slice()
    );
    Ok(())
}

#[test]
fn standard_input_has_a_name(rt: HostRuntime) -> Result<(), Fail> {
    let names = Vec::new(rt.alloc());
    let text = told(
        rt.alloc(),
        MessageFormat::Plain,
        names.as_slice(),
        b"a\xff\x80\xc3b",
        5,
    )?;
    assert!(&rt;
        text.as_slice()
            == b"<stdin>:1:4: error: no module 'N' is given [missing]\nAn import names a module of the set or `Prelude`; there is no other library.\na\\xff\\x80\\xc3b\n             ^\n".as_slice()
    );
    Ok(())
}

#[test]
fn labels_have_colours(rt: HostRuntime) -> Result<(), Fail> {
    let names = Vec::new(rt.alloc());
    let text = told(
        rt.alloc(),
        MessageFormat::Coloured,
        names.as_slice(),
        b"",
        1,
    )?;
    assert!(&rt;
        text.as_slice()
            == b"<stdin>:1:1: \x1b[1;31merror\x1b[0m: no module 'N' is given [missing]\nAn import names a module of the set or `Prelude`; there is no other library.\n\n^\n".as_slice()
    );
    Ok(())
}

#[test]
fn a_place_outside_is_not_stated(rt: HostRuntime) -> Result<(), Fail> {
    let names = Vec::new(rt.alloc());
    for column in [0u32, 4, 9] {
        let text = told(
            rt.alloc(),
            MessageFormat::Plain,
            names.as_slice(),
            b"ab",
            column,
        )?;
        assert!(&rt; text.is_empty());
    }
    Ok(())
}
