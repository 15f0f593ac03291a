//! Lexical faults after the first one of a source.
use hm_lex::{LexFault, Place, lex};
use hm_messages_lexemes::later_lexemes;
use std::alloc::{AllocError, Global};

/// A line and a column.
type At = (u32, u32);

/// Sources with how many faults are looked for after the first one, and the places of all.
const ROWS: [(&[u8], usize, &[At]); 12] = [
    (b"x ++ y * z", 20, &[(1, 3), (1, 8)]),
    (b"x ++ y * z", 1, &[(1, 3), (1, 8)]),
    (b"x ++ y * z", 0, &[(1, 3)]),
    (b"a + b\n  `M.d'` e - f", 20, &[(1, 3), (2, 3), (2, 12)]),
    (b"-- a + b\n# b --> c", 20, &[(2, 1), (2, 5)]),
    (b"1.5 + 20.25*x", 20, &[(1, 1), (1, 5), (1, 7), (1, 12)]),
    // an exponent, a lone backquote and a string without an end are the last faults
    (b"+ 1.5e3 +", 20, &[(1, 1), (1, 3)]),
    (b"+ `f x +", 20, &[(1, 1), (1, 3)]),
    (b"+ \"f\n +", 20, &[(1, 1), (1, 3)]),
    (b"\"f\n +", 20, &[(1, 1)]),
    // an open comment is a fault of another kind
    (b"+ {- +", 20, &[(1, 1)]),
    (b"x - y -", 20, &[(1, 3), (1, 7)]),
];

/// Returns whether places are those of lines and columns.
fn are_at(places: &[Place], wanted: &[At]) -> bool {
    if places.len() != wanted.len() {
        return false;
    }
    for (place, (line, column)) in places.iter().zip(wanted.iter()) {
        if place.line != *line || place.column != *column {
            return false;
        }
    }
    true
}

/// Returns the places of a source's lexical faults: of the first one, and of at most `most` after it.
fn faults_of(alloc: Global, source: &[u8], most: usize) -> Result<Vec<Place>, AllocError> {
    let mut places = Vec::new(alloc);
    let Err(LexFault::Lexeme(first)) = lex(alloc, source) else {
        return Ok(places);
    };
    places.push(first)?;
    let later = later_lexemes(alloc, source, first, most)?;
    places.extend_from_slice(later.as_slice())?;
    Ok(places)
}

#[test]
fn lexical_faults(rt: HostRuntime) -> Result<(), AllocError> {
    for (source, most, wanted) in &ROWS {
        let places = faults_of(rt.alloc(), source, *most)?;
        assert!(rt; are_at(places.as_slice(), wanted));
    }
    Ok(())
}
