// The parts of a deck whose header fits.
#![tactic(auto, using(crate::proofs::HeaderLaws::header_facts), unfolding(rules::specs::Decks::symbol_part, rules::specs::Decks::clause_words, rules::specs::Decks::term_cells))]

ghost use Rattle.std.specs.Prelude.{◌+◌, ◌<◌, ◌≡◌, true, length, get_or};
ghost use Rattle.rules.specs.Syntax.{Deck};
ghost use Rattle.rules.specs.Refusals.{accepted};
ghost use Rattle.rules.specs.Decks.{header_fits, symbol_part, symbol_words, clause_words, term_cells, read_format, open_deck};
ghost use Rattle.rules.specs.Column.{number_word};
ghost use Rattle.deck.specs.Answers.{found};
ghost use Rattle.deck.specs.Pairs.{known_word};

use crate::{pairs, rows};

// The words of a deck whose header fits.
#[derive(Clone, Copy)]
pub struct Parts<'a> {
    pub words: &'a [u16],
    ghost fits: { header_fits words.now ≡ true },
}

impl<'a> Parts<'a> {
    // The symbols as they stand: one word each in format 1, two in format 2.
    fn symbol_part(&self) -> &'a [u16]
        ensures { result.now ≡ symbol_part self.now.words.now }
    {
        let end = usize::from(self.words[4]);
        &self.words[8..end]
    }

    // The symbol words, one a symbol: in format 1 they stand in the deck, in format 2 they are put in the lent table.
    pub fn symbols(&self, table: &'a mut [u16; 4096]) -> &'a [u16]
        ensures { result.now ≡ symbol_words self.now.words.now }
    {
        let part = self.symbol_part();
        if self.words[0] == 2 {
            pairs::kinds(part, table)
        } else {
            part
        }
    }

    // Refusal 2 of format 2, beside the kinds: second words, and numbers of equal value.
    pub fn values_fit(&self) -> bool
        ensures { result ≡ found (read_format self.now.words.now) }
    {
        self.words[0] != 2 || pairs::fit(self.symbol_part())
    }

    // The word of the value of symbol f, where it is a number.
    pub fn value(&self, f: usize) -> Option<u16>
        ensures { (d : Deck) → open_deck self.now.words.now ≡ accepted d → result ≡ known_word (number_word d.format f) }
    {
        if self.words[0] != 2 {
            return None;
        }
        pairs::value(self.symbol_part(), f)
    }

    // The clause words: where each clause starts, counted from the first cell.
    pub fn starts(&self) -> &'a [u16]
        ensures { result.now ≡ clause_words self.now.words.now }
    {
        let from = usize::from(self.words[4]);
        let end = usize::from(self.words[6]);
        &self.words[from..end]
    }

    // The cells of all clauses.
    pub fn cells(&self) -> &'a [u16]
        ensures { result.now ≡ term_cells self.now.words.now }
    {
        let from = usize::from(self.words[6]);
        &self.words[from..]
    }

    // Where clause i starts.
    pub fn clause_start(&self, i: usize) -> usize
        requires { i < length (clause_words self.now.words.now) }
        ensures { result ≡ get_or (clause_words self.now.words.now) i 0 }
    {
        usize::from(self.starts()[i])
    }

    // Where clause i ends: at the next start, or after the last cell.
    pub fn clause_end(&self, i: usize) -> usize
        requires { i < length (clause_words self.now.words.now) }
        ensures { result ≡ get_or (clause_words self.now.words.now) (i + 1) (length (term_cells self.now.words.now)) }
    {
        rows::end(self.starts(), self.cells(), i)
    }
}

// The symbol words, for a caller who keeps the words alone.
pub fn symbols<'a>(deck: &'a [u16], table: &'a mut [u16; 4096]) -> &'a [u16]
    requires { header_fits deck.now ≡ true }
    ensures { result.now ≡ symbol_words deck.now }
{
    Parts { words: deck }.symbols(table)
}
