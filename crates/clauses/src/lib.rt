// The clauses of an opened deck: their cells, and which are about one predicate.
#![tactic(auto)]

ghost use Rattle.std.specs.Prelude.{◌≡◌, ◌≤◌, ◌<◌, length, IfSome};
ghost use Rattle.std.proofs.Props.{props};
ghost use Rattle.rules.specs.Terms.{Terms};
ghost use Rattle.rules.specs.Syntax.{Clause, Deck};
ghost use Rattle.rules.specs.Refusals.{accepted};
ghost use Rattle.rules.specs.Decks.{write_clause, clause_words, symbol_words, open_deck};
ghost use Rattle.rules.specs.Resolution.{clauses_about, row_of, tried};
ghost use Rattle.signature.specs.Symbols.{arity_at};
ghost use Rattle.clauses.specs.Clauses.{ClauseAt};
ghost use Rattle.clauses.specs.Index.{Indexed};

use by_predicate::Index;
use deck::opened::Opened;
use tried::Tried;

pub mod by_predicate;
mod groups;
pub mod rows;
pub mod tried;

// An opened deck, and the index of its clauses.
#[derive(Clone, Copy)]
pub struct Clauses<'a> {
    pub deck: Opened<'a>,
    pub index: &'a Index,
    ghost indexed: { Indexed deck.words.now index.now } by { Prim.hlevel props },
}

impl<'a> Clauses<'a> {
    ghost use Rattle.clauses.specs.Tried.{row_of_symbol, left, IsRowOf};

    // The deck's clauses, by an index that was filled for it.
    pub fn new(deck: Opened<'a>, index: &'a Index) -> Clauses<'a>
        requires { Indexed deck.words.now index.now }
        ensures { result.deck.words.now ≡ deck.entry.words.now }
    {
        Clauses { deck, index }
    }

    // The deck's symbol words.
    pub fn symbols(&self) -> &'a [u16]
        ensures { result.now ≡ symbol_words self.now.deck.words.now }
    {
        self.deck.symbols()
    }

    // The cells of clause i.
    pub fn cells(&self, i: usize) -> &'a [u16]
        requires { i < length (clause_words self.now.deck.words.now) }
        ensures { (d : Deck) (c : Clause) → open_deck self.now.deck.words.now ≡ accepted d → ClauseAt d.clauses i c → result.now ≡ write_clause c }
    {
        clause_cells(&self.deck, i)
    }

    // The clauses that a literal about p tries, in deck order. Its first argument begins with the symbol `first`; none is a variable, or no argument.
    pub fn tried(&self, p: usize, first: Option<u16>) -> Tried<'a>
        requires p_in { p < length (symbol_words self.now.deck.words.now) }
        requires argued { IfSome first (λ f. 0 < arity_at (symbol_words self.now.deck.words.now) p) }
        ensures clauses { result.clauses ≡ self.now }
        ensures predicate { result.p ≡ p }
        ensures few { length result.numbers.now ≤ 8192 }
        ensures start { result.next ≡ 0 }
        ensures row { IsRowOf first result.row }
        ensures tried { (d : Deck) (ts : Terms) → open_deck self.now.deck.words.now ≡ accepted d → row_of_symbol first ≡ row_of ts → left d result ≡ tried ts (clauses_about p d.clauses) }
    {
        Tried {
            clauses: *self,
            p,
            numbers: self.index.about(p),
            row: self.index.row(p, first),
            next: 0,
        }
    }
}

// The cells of clause i.
pub fn clause_cells<'a>(deck: &Opened<'a>, i: usize) -> &'a [u16]
    requires { i < length (clause_words deck.now.words.now) }
    ensures { (d : Deck) (c : Clause) → open_deck deck.now.words.now ≡ accepted d → ClauseAt d.clauses i c → result.now ≡ write_clause c }
{
    deck.clause(i)
}

// The predicate that clause i is about.
fn predicate(deck: &Opened, i: usize) -> u16
    requires { i < length (clause_words deck.now.words.now) }
    ensures { (d : Deck) (c : Clause) → open_deck deck.now.words.now ≡ accepted d → ClauseAt d.clauses i c → result ≡ c.predicate }
{
    clause_cells(deck, i)[0]
}
