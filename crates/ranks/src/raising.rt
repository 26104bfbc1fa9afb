// The least ranks, by raising words clause by clause.
ghost use Rattle.std.specs.Prelude.{◌≤◌, ◌<◌, ◌≡◌, length};
ghost use Rattle.rules.specs.Syntax.{Deck, Clause};
ghost use Rattle.rules.specs.Cells.{read_cell};
ghost use Rattle.rules.specs.Refusals.{accepted};
ghost use Rattle.rules.specs.Decks.{open_deck, clause_words};
ghost use Rattle.rules.specs.Ranks.{greatest};
ghost use Rattle.deck.specs.Kinds.{symbols_of};
ghost use Rattle.clauses.specs.Clauses.{ClauseAt};
ghost use Rattle.ranks.specs.Literals.{value};
ghost use Rattle.ranks.specs.Raising.{number, Zero, Stepped, Passed, RankSays};

use crate::literals::literal;
use clauses::clause_cells;
use deck::opened::Opened;

// What one clause, or a pass over all clauses, did to the words: nothing, a raise, or a number above 4,096 met.
#[derive(Clone, Copy, Debug, PartialEq, Eq)]
pub enum Pass {
    Same,
    Raised,
    Above,
}

// What the literal that begins in a cell comes to: its predicate's word, and one more where it is negated; 0 where none begins.
fn value(symbols: &[u16], cell: u16, words: &[u16]) -> usize
    requires { (length symbols.now ≤ 4096) × (length words.now ≡ 4096) }
    ensures { result ≡ value words.now (read_cell (symbols_of symbols.now) cell) }
{
    match literal(symbols, cell) {
        Some(l) => usize::from(l.nots) + usize::from(words[usize::from(l.predicate)]),
        None => 0,
    }
}

// The greatest that the literals in the body of clause i come to.
fn greatest(deck: &Opened, words: &[u16], i: usize) -> usize
    requires { (length words.now ≡ 4096) × (i < length (clause_words deck.now.words.now)) }
    ensures { (d : Deck) (c : Clause) → open_deck deck.now.words.now ≡ accepted d → ClauseAt d.clauses i c → result ≡ greatest (number words.now) c.body }
{
    let symbols = deck.symbols();
    let body = &clause_cells(deck, i)[1..];
    let mut best = 0;
    for cell in body {
        best = best.max(value(symbols, *cell, words));
    }
    best
}

// Raises the word of clause i's predicate to what its body comes to.
fn raise(deck: &Opened, words: &mut [u16], i: usize) -> Pass
    requires { (length words.old ≡ 4096) × (i < length (clause_words deck.now.words.now)) }
    ensures length { length words.new ≡ 4096 }
    ensures stepped { (d : Deck) (c : Clause) → open_deck deck.now.words.now ≡ accepted d → ClauseAt d.clauses i c → Stepped d.clauses c words.old words.new result }
{
    let best = greatest(deck, words, i);
    let p = usize::from(clause_cells(deck, i)[0]);
    if best <= usize::from(words[p]) {
        return Pass::Same;
    }
    if 4096 < best {
        return Pass::Above;
    }
    words[p] = best as u16;
    Pass::Raised
}

// All clauses in order.
fn raise_all(deck: &Opened, words: &mut [u16]) -> Pass
    requires { length words.old ≡ 4096 }
    ensures length { length words.new ≡ 4096 }
    ensures passed { (d : Deck) → open_deck deck.now.words.now ≡ accepted d → Passed d.clauses words.old words.new result }
{
    let mut done = Pass::Same;
    for i in 0..deck.clause_count() {
        match raise(deck, words, i) {
            Pass::Above => return Pass::Above,
            Pass::Raised => done = Pass::Raised,
            Pass::Same => {}
        }
    }
    done
}

// The least ranks, by passes from 0 on until nothing changes; false where there are none: a word still rises after as many passes as there are symbols.
pub fn rank(deck: &Opened, words: &mut [u16]) -> bool
    requires { Zero words.old }
    ensures length { length words.new ≡ 4096 }
    ensures ranks { (d : Deck) → open_deck deck.now.words.now ≡ accepted d → RankSays d.clauses words.new result }
{
    for k in 0..deck.symbols().len() + 1 {
        match raise_all(deck, words) {
            Pass::Same => return true,
            Pass::Above => return false,
            Pass::Raised => {}
        }
    }
    false
}
