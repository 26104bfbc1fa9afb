// How long a deck's text is, before a byte of it is written. A clause's text is as long as the shares of its cells.
ghost use Rattle.std.specs.Prelude.{sum_by, count_by, ◌+◌, ◌<◌, ◌≤◌, ◌≡◌, [], length};
ghost use Rattle.rules.specs.Cells.{read_cell};
ghost use Rattle.rules.specs.Decks.{symbol_words, clause_words};
ghost use Rattle.rules.specs.Listing.{decimal};
ghost use Rattle.text_rules.specs.TextWriter.{value_text, format_text, clauses_text, deck_text};
ghost use Rattle.deck.specs.Kinds.{kind_of, begins_literal};
ghost use Rattle.signature.specs.Symbols.{symbol_count};
ghost use Rattle.writing.specs.Lengths.{bracket_bytes, cell_bytes, clause_bytes_at, symbol_bytes_at};
ghost use Rattle.writing.specs.Writes.{deck_of, format_of, symbols_in, lines_of};

use crate::literals::NEGATED;
use crate::symbols::is_second;
use deck::kinds;
use deck::kinds::Kind;
use deck::opened::Opened;

pub fn deck_length(deck: &Opened) -> usize
    ensures { result ≡ length (deck_text (deck_of deck.now.words.now)) }
{
    format_length(deck) + symbols_length(deck) + clauses_length(deck)
}

// The line of format 2.
fn format_length(deck: &Opened) -> usize
    ensures { (result ≡ length (format_text (format_of deck.now.words.now) [])) × (result ≤ 4) }
{
    if is_second(deck) { 4 } else { 0 }
}

fn symbols_length(deck: &Opened) -> usize
    ensures { (result ≡ length (lines_of deck.now.words.now)) × (result ≤ 73728) }
{
    (0..deck.symbols().len())
        .map(|n| symbol_length(deck, n))
        .sum()
}

// The line of symbol number n: seven bytes, its number, and its arity or value.
fn symbol_length(deck: &Opened, n: usize) -> usize
    requires { n < symbol_count (symbol_words deck.now.words.now) }
    ensures { (result ≡ symbol_bytes_at deck.now.words.now n) × (result ≤ 18) }
{
    match deck.parts().value(n) {
        Some(word) => 7 + digits(n) + value_length(word),
        None => 7 + digits(n) + digits(signature::arity(deck.symbols(), n)),
    }
}

// The value of a number by its word.
fn value_length(word: u16) -> usize
    ensures { (result ≡ length (value_text word [])) × (result ≤ 6) }
{
    let w = usize::from(word);
    if w < 32768 {
        return digits(w);
    }
    1 + digits(65536 - w)
}

fn clauses_length(deck: &Opened) -> usize
    ensures { (result ≡ length (clauses_text (deck_of deck.now.words.now).clauses)) × (result ≤ 134250496) }
{
    (0..deck.clause_count())
        .map(|i| clause_length(deck, i))
        .sum()
}

// The shares of a clause's cells, and two bytes more where it has a body.
fn clause_length(deck: &Opened, i: usize) -> usize
    requires { i < length (clause_words deck.now.words.now) }
    ensures { (result ≡ clause_bytes_at deck.now.words.now i) × (result ≤ 8194) }
{
    let cells = deck.clause(i);
    let bytes = row_length(deck, cells);
    if literal_count(deck, cells) < 2 {
        return bytes;
    }
    bytes + 2
}

// The shares of cells together.
fn row_length(deck: &Opened, cells: &[u16]) -> usize
    requires { length cells.now ≤ 256 }
    ensures { result ≡ sum_by (λ c. cell_bytes (kind_of (read_cell (symbols_in deck.now.words.now) c)) c) cells.now }
{
    cells.iter().map(|cell| cell_length(deck, *cell)).sum()
}

fn cell_length(deck: &Opened, cell: u16) -> usize
    ensures { (result ≡ cell_bytes (kind_of (read_cell (symbols_in deck.now.words.now) cell)) cell) × (result ≤ 32) }
{
    let c = usize::from(cell);
    match kinds::read(deck.symbols(), cell) {
        Kind::Variable(v) => 1 + digits(v),
        Kind::Function(k) => 1 + digits(c) + brackets(k),
        Kind::Positive(k) => 3 + digits(c) + brackets(k),
        Kind::Negative(k) => 4 + digits(usize::from(cell - NEGATED)) + brackets(k),
        Kind::Invalid => 0,
    }
}

// How many literals begin in the cells.
fn literal_count(deck: &Opened, cells: &[u16]) -> usize
    ensures { result ≡ count_by (λ c. begins_literal (kind_of (read_cell (symbols_in deck.now.words.now) c))) cells.now }
{
    cells
        .iter()
        .filter(|cell| kinds::read(deck.symbols(), **cell).begins_literal())
        .count()
}

// The brackets around so many arguments, and the commas between them.
fn brackets(arity: usize) -> usize
    requires { arity ≤ 15 }
    ensures { (result ≡ bracket_bytes arity) × (result ≤ 16) }
{
    if arity == 0 {
        return 0;
    }
    arity + 1
}

fn digits(n: usize) -> usize
    requires { n < 100000 }
    ensures { (result ≡ length (decimal n [])) × (result ≤ 5) }
{
    // `as`, since std has no `From<u32>` for `usize`: a 32-bit number fits.
    n.max(1).ilog10() as usize + 1
}
