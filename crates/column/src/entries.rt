// The entry of a column: the value that the term of a place is.
ghost use Rattle.std.specs.Prelude.{◌≡◌};
ghost use Rattle.rules.specs.Terms.{Terms};
ghost use Rattle.rules.specs.Syntax.{Deck};
ghost use Rattle.rules.specs.Refusals.{accepted};
ghost use Rattle.rules.specs.Decks.{symbol_words, open_deck};
ghost use Rattle.rules.specs.Column.{term_word, entry_word};
ghost use Rattle.deck.specs.Pairs.{known_word};
ghost use Rattle.matching.specs.Cells.{made};
ghost use Rattle.column.specs.Entries.{EntryAt, SomeEntry};

use deck::opened::Opened;
use matching::cells::{FlatTerms, VARIABLE};

// The word of the value of the term that begins with a cell, where it is a number.
fn word(deck: &Opened, cell: u16) -> Option<u16>
    ensures { (d : Deck) (us : Terms) → open_deck deck.now.words.now ≡ accepted d → result ≡ known_word (term_word d.format (made cell us)) }
{
    if VARIABLE <= cell {
        return None;
    }
    deck.parts().value(usize::from(cell))
}

// The same of the term of a place, counted from 0, of the terms that the cells are.
pub fn entry(deck: &Opened, cells: &[u16], place: u64) -> Option<u16>
    requires { SomeEntry deck.now.words.now cells.now place }
    ensures { (d : Deck) (ts : Terms) → open_deck deck.now.words.now ≡ accepted d → EntryAt (symbol_words deck.now.words.now) cells.now ts place → result ≡ known_word (entry_word d.format place ts) }
{
    let symbols = deck.symbols();
    let mut at = 0;
    for _i in 0..place {
        let terms = FlatTerms { cells, symbols };
        at = terms.skip(at);
    }
    word(deck, cells[at])
}
