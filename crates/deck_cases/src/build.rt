// Decks and queries of any size, written into lent words.
ghost use Rattle.std.specs.Prelude.{◌≤◌};

use std::ops::Range;

// The numbers of a deck's symbols, clauses and cells, and of the cells of each clause but the last.
#[derive(Clone, Copy)]
pub struct Shape {
    symbols: u16,
    clauses: u16,
    cells: u16,
    size: u16,
}

impl Shape {
    pub fn new(symbols: u16, clauses: u16, cells: u16, size: u16) -> Shape {
        Shape {
            symbols,
            clauses,
            cells,
            size,
        }
    }

    // Where the clause words begin, the cells, and where the cells end.
    fn starts(self) -> usize
        ensures { result ≤ 65543 }
    {
        8 + usize::from(self.symbols)
    }

    fn cells(self) -> usize
        ensures { result ≤ 131078 }
    {
        self.starts() + usize::from(self.clauses)
    }

    pub fn end(self) -> usize {
        self.cells() + usize::from(self.cells)
    }
}

pub fn put(words: &mut [u16], at: usize, word: u16) {
    if let Some(place) = words.get_mut(at) {
        *place = word;
    }
}

fn fill(words: &mut [u16], places: Range<usize>, word: u16) {
    if let Some(part) = words.get_mut(places) {
        part.fill(word);
    }
}

fn header(words: &mut [u16], shape: Shape) {
    let clause_offset = 8u16.wrapping_add(shape.symbols);
    let term_offset = clause_offset.wrapping_add(shape.clauses);
    if let Some(part) = words.get_mut(..8) {
        part.copy_from_slice(&[
            1,
            shape.symbols,
            8,
            shape.clauses,
            clause_offset,
            shape.cells,
            term_offset,
            term_offset.wrapping_add(shape.cells),
        ]);
    }
}

// All symbols are predicates without terms, and all cells predicate 0.
pub fn deck(words: &mut [u16], shape: Shape) {
    header(words, shape);
    fill(words, 8..shape.starts(), 256);
    for i in 0..shape.clauses {
        put(
            words,
            shape.starts() + usize::from(i),
            i.wrapping_mul(shape.size),
        );
    }
    fill(words, shape.cells()..shape.end(), 0);
}
