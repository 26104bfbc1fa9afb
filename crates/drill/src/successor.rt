// The next term, made from the cells of the one before: from the right, the next greater functor with which the cells after it can be filled;
// then the least filling. Bounds of 8 stay clauses: the cells are a part of a term's, and k a number between calls.
// `as` is proved to lose nothing in this file; `u16::try_from` would want an answer for what does not fit.
ghost use Rattle.std.specs.Prelude.{◌+◌, ◌-◌, suc, ◌≤◌, ◌<◌, ◌≡◌, true, length};
ghost use Rattle.rules.specs.Drill.{fillings, terms_from};
ghost use Rattle.signature.specs.Symbols.{symbol_count};
ghost use Rattle.deck.specs.Kinds.{symbols_of};
ghost use Rattle.drill.specs.Successors.{arity_at, fills, nonempty, Heads, AllKnown, Sought, Advanced, rest_after};
ghost use Rattle.drill.specs.Holding.{Least, Holds, Begins, cells_of};

use crate::table::{Row, first_row};
use crate::term::Term;

// A deck's symbols, with the table of what they can fill.
#[derive(Drop)]
pub struct Functors<'a> {
    pub symbols: &'a [u16],
    pub fillable: [[bool; 8]; 8],
    pub ghost few: { length symbols.now ≤ 4096 },
    pub ghost known: { AllKnown (symbols_of symbols.now) fillable 8 },
}

impl<'a> Functors<'a> {
    pub fn new(symbols: &'a [u16]) -> Self
        requires { length symbols.now ≤ 4096 }
        ensures { result.symbols.now ≡ symbols.now }
    {
        let mut fillable = [first_row(); 8];
        for m in 0..7 {
            let row = Row {
                symbols,
                m,
                fillable: &fillable[m],
            };
            fillable[m + 1] = row.next();
        }
        Functors { symbols, fillable }
    }

    // The row of m cells.
    fn row(&self, m: usize) -> Row<'_>
        requires { m < 8 }
        ensures symbols { result.symbols.now ≡ self.now.symbols.now }
        ensures cells { result.m ≡ m }
    {
        let rows = &self.fillable;
        Row {
            symbols: self.symbols,
            m,
            fillable: &rows[m],
        }
    }

    // The least functor at or above `from` with which k + 1 places can be filled by m + 1 cells.
    fn seek(&self, m: usize, k: usize, from: usize) -> Option<usize>
        requires { (m < 8) × (k ≤ 8) × (from ≤ symbol_count self.now.symbols.now) }
        ensures { Sought (symbols_of self.now.symbols.now) m k from result }
    {
        self.row(m).seek(k, from)
    }

    // The number of terms that follow symbol f.
    fn arity(&self, f: usize) -> usize
        requires { f < symbol_count self.now.symbols.now }
        ensures { result ≡ arity_at (symbols_of self.now.symbols.now) f }
    {
        signature::arity(self.symbols, f)
    }

    // Fills the cells with the least k terms that take just these.
    fn fill(&self, cells: &mut [u16], k: usize)
        requires short { length cells.old ≤ 8 }
        requires fillable { nonempty (fillings (symbols_of self.now.symbols.now) (length cells.old) k) ≡ true }
        ensures { Heads (symbols_of self.now.symbols.now) k (fillings (symbols_of self.now.symbols.now) (length cells.old) k) cells.new }
    {
        if cells.is_empty() {
            return;
        }
        let f = self.seek(cells.len() - 1, k - 1, 0).unwrap();
        let places = self.arity(f) + (k - 1);
        cells[0] = f as u16;
        self.fill(&mut cells[1..], places);
    }

    // The next k terms that take as many cells; false where these are the last.
    fn advance(&self, cells: &mut [u16], k: usize) -> bool
        requires short { length cells.old ≤ 8 }
        requires terms { fills (symbols_of self.now.symbols.now) k cells.old ≡ true }
        ensures { Advanced (symbols_of self.now.symbols.now) k cells.old result cells.new }
    {
        if cells.is_empty() {
            return false;
        }
        let m = cells.len() - 1;
        let f = usize::from(cells[0]);
        let places = self.arity(f) + (k - 1);
        if self.advance(&mut cells[1..], places) {
            return true;
        }
        let Some(g) = self.seek(m, k - 1, f + 1) else {
            return false;
        };
        let places = self.arity(g) + (k - 1);
        cells[0] = g as u16;
        self.fill(&mut cells[1..], places);
        true
    }

    // The least term of `size` cells.
    fn least(&self, size: usize) -> Term
        requires size { (1 ≤ size) × (size ≤ 8) }
        requires fillable { nonempty (fillings (symbols_of self.now.symbols.now) size 1) ≡ true }
        ensures { Least (symbols_of self.now.symbols.now) size result }
    {
        let mut cells = [0; 8];
        self.fill(&mut cells[..size], 1);
        Term { cells, size }
    }

    // The first term of `from` cells or more, n at most. No `find`: the library tells nothing of it over `from..=n`, and its closure would ask again that
    // size is 1 to 8.
    fn first(&self, n: usize, from: usize) -> Option<Term>
        requires { (n ≤ 8) × (1 ≤ from) × (from ≤ 9) }
        ensures { Begins (symbols_of self.now.symbols.now) n (terms_from (symbols_of self.now.symbols.now) from (suc n - from)) result }
    {
        for size in from..=n {
            if self.seek(size - 1, 0, 0).is_some() {
                return Some(self.least(size));
            }
        }
        None
    }

    // The term after one, n cells at most; after none, the first term of all.
    pub fn next(&self, n: usize, before: Option<Term>) -> Option<Term>
        requires { (n ≤ 8) × Holds (symbols_of self.now.symbols.now) n before }
        ensures { Begins (symbols_of self.now.symbols.now) n (rest_after (symbols_of self.now.symbols.now) n (cells_of before)) result }
    {
        let Some(term) = before else {
            return self.first(n, 1);
        };
        let size = term.size;
        let mut cells = term.cells;
        if self.advance(&mut cells[..size], 1) {
            return Some(Term { cells, size });
        }
        self.first(n, size + 1)
    }
}
