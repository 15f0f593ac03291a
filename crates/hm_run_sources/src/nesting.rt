//! A bound on how deep the trees of a source nest.
//!
//! Each edge of a tree has a lexeme of its own: an argument, an arrow, a colon, a `\`, an `if`, or the bracket around the subtree. Trees on the
//! two sides of a separator are siblings, and so are constructors and guards. An item goes from one separator to the next, or begins with a `|`. So
//! it has at most as many levels as it has lexemes, plus those of the deepest brackets in it.
ghost use Rattle.std.specs.Prelude.{◌<◌, ◌≤◌};

use crate::pieces::{Piece, first_piece};

/// The deepest nesting of brackets in a source without a lexical fault.
const MAX_BRACKETS: usize = 200;

/// A source has at most one level for this many bytes. A level of fewer bytes is small, so two of them count as one.
const BYTES_PER_LEVEL: usize = 4;

/// The items between two brackets, as far as they were read.
#[derive(Clone, Copy)]
struct Items {
    /// The number of lexemes and brackets since the last separator.
    pieces: usize,
    /// The levels of these brackets, at most.
    within: usize,
    /// The levels of the items before the last separator, at most.
    before: usize,
}

impl Items {
    const NONE: Items = Items {
        pieces: 0,
        within: 0,
        before: 0,
    };

    /// Returns the levels of all items, at most.
    fn levels(self) -> usize {
        self.pieces.saturating_add(self.within).max(self.before)
    }

    /// Adds a lexeme, or brackets with this many levels.
    fn add(&mut self, levels: usize) {
        self.pieces = self.pieces.saturating_add(1);
        self.within = self.within.max(levels);
    }

    /// Adds a separator.
    fn part(&mut self) {
        *self = Items {
            pieces: 0,
            within: 0,
            before: self.levels(),
        };
    }

    /// Adds a lexeme with which an item begins.
    fn begin(&mut self) {
        self.part();
        self.add(0);
    }
}

/// The items around a place of a source, for each open bracket.
#[derive(Drop)]
struct Open {
    /// The items since the innermost open bracket.
    here: Items,
    /// The items before each open bracket, the outermost first.
    outer: [Items; MAX_BRACKETS],
    /// The number of open brackets.
    depth: usize,
}

impl Open {
    fn new() -> Open
        ensures depth { result.depth ≤ 200 }
    {
        Open {
            here: Items::NONE,
            outer: [Items::NONE; MAX_BRACKETS],
            depth: 0,
        }
    }

    /// Closes the innermost bracket. The outermost one closes a module, or its exports.
    fn close(&mut self)
        requires depth { self.old.depth ≤ 200 }
        ensures depth { self.new.depth ≤ 200 }
    {
        if self.depth == 0 {
            return;
        }
        let levels = self.here.levels();
        self.depth -= 1;
        self.here = self.outer[self.depth];
        self.here.add(levels);
        if self.depth == 0 {
            self.here.part();
        }
    }

    /// Opens a bracket. Ignores it above the limit: such a source is refused before it is parsed.
    fn open(&mut self)
        requires depth { self.old.depth ≤ 200 }
        ensures depth { self.new.depth ≤ 200 }
    {
        if self.depth < MAX_BRACKETS {
            self.outer[self.depth] = self.here;
            self.here = Items::NONE;
            self.depth += 1;
        }
    }

    /// Adds a piece.
    #[inline(always)]
    fn pass(&mut self, piece: Piece)
        requires depth { self.old.depth ≤ 200 }
        ensures depth { self.new.depth ≤ 200 }
    {
        match piece {
            Piece::Gap => {}
            Piece::Lexeme => self.here.add(0),
            Piece::Separator => self.here.part(),
            Piece::Bar => self.here.begin(),
            Piece::Opening => self.open(),
            Piece::Closing => self.close(),
        }
    }
}

/// Returns the levels of the trees of a source of this many bytes, at most.
pub(crate) fn most_levels(bytes: usize) -> usize {
    bytes / BYTES_PER_LEVEL
}

/// Returns the levels of the trees of a source, at most. The bound holds for each part that is parsed.
pub(crate) fn levels_of(source: &[u8]) -> usize {
    let mut open = Open::new();
    let mut at = 0;
    while at < source.len() {
        let (piece, len) = first_piece(&source[at..]);
        open.pass(piece);
        // Each piece has at least one byte.
        at += len.max(1);
    }
    for _ in 0..MAX_BRACKETS {
        open.close();
    }
    open.here.levels().min(most_levels(source.len()))
}
