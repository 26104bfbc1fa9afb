// A deck that opened.
ghost use Rattle.std.specs.Prelude.{◌≡◌, ◌<◌, length, IfOk};
ghost use Rattle.rules.specs.Refusals.{checked_number};
ghost use Rattle.rules.specs.Decks.{symbol_words, clause_words, term_cells, open_deck};
ghost use Rattle.deck.specs.Answers.{answer_number};
ghost use Rattle.deck.specs.Rows.{row_at};

use crate::parts::Parts;
use crate::rows::Rows;
use crate::{Refusal, clauses, header, lengths, starts, symbols};

// The words of a deck that opened, and its parts, found once. That they open as d stays a clause of the crates above: an `impl Model` with d for its
// view would hide `words`, which the contracts of the parts name.
#[derive(Clone, Copy)]
pub struct Opened<'a> {
    pub words: &'a [u16],
    symbols: &'a [u16],
    rows: Rows<'a>,
    ghost opens: { checked_number (open_deck words.now) ≡ 0 },
    ghost symbol_part: { symbols.now ≡ symbol_words words.now },
    ghost start_part: { rows.starts.now ≡ clause_words words.now },
    ghost cell_part: { rows.cells.now ≡ term_cells words.now },
}

impl<'a> Opened<'a> {
    // Refusals 1 to 5, each over everything before the next. The table is for the symbol words of a deck of format 2.
    pub fn new(words: &'a [u16], table: &'a mut [u16; 4096]) -> Result<Opened<'a>, Refusal>
        ensures number { answer_number result ≡ checked_number (open_deck words.now) }
        ensures words { IfOk result (λ opened. opened.words.now ≡ words.now) }
    {
        if !header::fit(words) {
            return Err(Refusal::Header);
        }
        let parts = Parts { words };
        let symbols = parts.symbols(table);
        if !symbols::fit(symbols) {
            return Err(Refusal::Symbol);
        }
        if !parts.values_fit() {
            return Err(Refusal::Symbol);
        }
        let starts = parts.starts();
        let cells = parts.cells();
        if !starts::fit(starts, cells.len()) {
            return Err(Refusal::Starts);
        }
        let rows = Rows { starts, cells };
        if !lengths::fit(&rows) {
            return Err(Refusal::LongClause);
        }
        if !clauses::fit(symbols, &rows) {
            return Err(Refusal::Clause);
        }
        Ok(Opened {
            words,
            symbols,
            rows,
        })
    }

    // The deck of words that are known to open.
    pub fn known(words: &'a [u16], table: &'a mut [u16; 4096]) -> Opened<'a>
        requires { checked_number (open_deck words.now) ≡ 0 }
        ensures { result.words.now ≡ words.now }
    {
        let parts = Parts { words };
        let rows = Rows {
            starts: parts.starts(),
            cells: parts.cells(),
        };
        Opened {
            words,
            symbols: parts.symbols(table),
            rows,
        }
    }

    // Its parts, where only the header is asked for.
    pub fn parts(&self) -> Parts<'a>
        ensures { result.words.now ≡ self.now.words.now }
    {
        Parts { words: self.words }
    }

    // The symbol words.
    pub fn symbols(&self) -> &'a [u16]
        ensures { result.now ≡ symbol_words self.now.words.now }
    {
        self.symbols
    }

    // The number of clauses.
    pub fn clause_count(&self) -> usize
        ensures { result ≡ length (clause_words self.now.words.now) }
    {
        self.rows.starts.len()
    }

    // The cells of clause i. That i is a clause's number stays a clause: a type of such numbers would hold the deck too, and be made for one call.
    pub fn clause(&self, i: usize) -> &'a [u16]
        requires { i < length (clause_words self.now.words.now) }
        ensures { result.now ≡ row_at (term_cells self.now.words.now) (clause_words self.now.words.now) i }
    {
        self.rows.row(i)
    }
}
