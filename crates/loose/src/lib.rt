// Loose variables (document 02, U5): refusal 13, one in a clause, and 14, one in the query; and the public check of a query.
#![tactic(auto)]

ghost use Rattle.std.specs.Prelude.{◌+◌, ◌<◌, ◌≡◌, List, length};
ghost use Rattle.rules.specs.Syntax.{Literal, Clause, Deck};
ghost use Rattle.rules.specs.Refusals.{accepted, checked_number};
ghost use Rattle.rules.specs.Loose.{tight_clause, tight_clauses, tight_query, check_tight_query};
ghost use Rattle.rules.specs.Decks.{clause_words, open_deck, read_query, check_query};
ghost use Rattle.deck.specs.Answers.{number_of};
ghost use Rattle.clauses.specs.Clauses.{ClauseAt};
ghost use Rattle.loose.specs.Marks.{Below};

use deck::Refusal;
use deck::opened::Opened;

mod row;

// Whether each variable of clause i stands in a positive literal of its body: the cells after the first, which is the head's predicate.
fn clause_tight(deck: &Opened, i: usize, marks: &mut [u16], stamp: u16) -> bool
    requires in_bounds { i < length (clause_words deck.now.words.now) }
    requires below { Below stamp marks.old × (stamp < 65535) }
    ensures { ((d : Deck) (c : Clause) → open_deck deck.now.words.now ≡ accepted d → ClauseAt d.clauses i c → result ≡ tight_clause c) × Below (stamp + 2) marks.new }
{
    let cells = clauses::clause_cells(deck, i);
    row::tight(deck.symbols(), &cells[1..], marks, stamp)
}

// The same of each clause. No `all`: its closure would change marks and stamp, and its contract would say `Below` again.
pub fn clauses_tight(deck: &Opened) -> bool
    ensures { (d : Deck) → open_deck deck.now.words.now ≡ accepted d → result ≡ tight_clauses d.clauses }
{
    let mut marks = [0u16; 1024];
    let mut stamp = 1;
    for i in 0..deck.clause_count() {
        if !clause_tight(deck, i, &mut marks, stamp) {
            return false;
        }
        stamp += 2;
    }
    true
}

// Whether each variable of the query stands in a positive literal of it.
pub fn query_tight(deck: &Opened, query: &[u16]) -> bool
    ensures { (d : Deck) (q : List Literal) → open_deck deck.now.words.now ≡ accepted d → read_query d query.now ≡ accepted q → result ≡ tight_query q }
{
    let mut marks = [0u16; 1024];
    row::tight(deck.symbols(), query, &mut marks, 1)
}

// Refusal 13 of an opened deck, then 14 of a query that was read.
pub fn check(deck: &Opened, query: &[u16]) -> Result<(), Refusal>
    ensures { (d : Deck) (q : List Literal) → open_deck deck.now.words.now ≡ accepted d → read_query d query.now ≡ accepted q → number_of result ≡ checked_number (check_tight_query d q) }
{
    if !clauses_tight(deck) {
        return Err(Refusal::LooseClause);
    }
    if !query_tight(deck, query) {
        return Err(Refusal::LooseQuery);
    }
    Ok(())
}

// CHECKING A QUERY. Refusals 1 to 5 of the deck, 6 and 7 of the query, then 13 of the deck and 14 of the query.
pub fn check_query(deck: &[u16], query: &[u16]) -> Result<(), Refusal>
    ensures { number_of result ≡ checked_number (check_query deck.now query.now) }
{
    let mut table = [0; 4096];
    let opened = deck::check(deck, query, &mut table)?;
    check(&opened, query)
}
