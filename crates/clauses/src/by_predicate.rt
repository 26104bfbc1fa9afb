// The index of a deck's clauses: by predicate, and by the functor that the first argument of the head starts with.
ghost use Rattle.std.specs.Prelude.{◌≡◌, ◌+◌, ◌<◌, length};
ghost use Rattle.rules.specs.Decks.{symbol_words};
ghost use Rattle.signature.specs.Symbols.{arity_at};
ghost use Rattle.clauses.specs.Index.{EmptyIndex, Indexed, FilledBelow, Places, numbers_at, RowFor};

use crate::groups::Groups;
use crate::rows::{self, Row};
use deck::opened::Opened;

// The clauses by predicate, and the rows of each predicate with arguments and over 64 clauses. A predicate's rows begin at half the number
// of the clauses before its group: they take at most half as many words as it has clauses, so that 4,096 words are enough.
#[derive(Drop)]
pub struct Index {
    groups: Groups,
    rows: [u64; 4096],
}

impl Index {
    // An index of no clause.
    pub fn blank() -> Index
        ensures { EmptyIndex result }
    {
        Index {
            groups: Groups::blank(),
            rows: [0; 4096],
        }
    }

    // Puts the deck's clauses into groups and rows.
    pub fn fill(&mut self, deck: &Opened)
        requires { EmptyIndex self.old }
        ensures { Indexed deck.now.words.now self.new }
    {
        self.groups.fill(deck);
        let symbols = deck.symbols();
        for p in 0..symbols.len() {
            if 0 < signature::arity(symbols, p) {
                self.fill_rows(deck, p);
            }
        }
    }

    // The rows of p, if over 64 clauses are about it.
    fn fill_rows(&mut self, deck: &Opened, p: usize)
        requires p_in { p < length (symbol_words deck.now.words.now) }
        requires argued { 0 < arity_at (symbol_words deck.now.words.now) p }
        requires below { FilledBelow deck.now.words.now p self.old }
        ensures { FilledBelow deck.now.words.now (p + 1) self.new }
    {
        let numbers = self.groups.about(p);
        if numbers.len() <= 64 {
            return;
        }
        let from = self.groups.begin(p) / 2;
        let end = from + rows::words(numbers.len());
        rows::fill(deck, p, numbers, &mut self.rows[from..end]);
    }

    // The numbers of the clauses about p.
    pub fn about(&self, p: usize) -> &[u16]
        requires { Places self.now p }
        ensures { result.now ≡ numbers_at self.now p }
    {
        self.groups.about(p)
    }

    // The row of the clauses that a literal about p tries, whose first argument begins with the symbol `first`; none where it tries all.
    pub fn row(&self, p: usize, first: Option<u16>) -> Option<Row<'_>>
        requires { Places self.now p }
        ensures { RowFor self.now p first result }
    {
        let first = first?;
        let n = self.groups.about(p).len();
        if n <= 64 {
            return None;
        }
        let from = self.groups.begin(p) / 2;
        Some(Row {
            words: &self.rows[from..from + rows::words(n)],
            number: usize::from(first % 16),
        })
    }
}
