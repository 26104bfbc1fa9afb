// A member's list of barred predicates, and whether a query or open goals reach one (document 02, U9): refusals 15 and 16.
#![tactic(auto)]

ghost use Rattle.std.specs.Prelude.{◌≡◌, List, [], ◌∷◌, ◌++◌, length};
ghost use Rattle.rules.specs.Syntax.{Literal, Deck};
ghost use Rattle.rules.specs.Refusals.{accepted, checked_number};
ghost use Rattle.rules.specs.Goals.{Marked, unmarked, first_goal, appearing};
ghost use Rattle.rules.specs.Decks.{symbol_words, open_deck, read_query};
ghost use Rattle.rules.specs.Rights.{predicates, literals_of, check_rights};
ghost use Rattle.deck.specs.Answers.{number_of};
ghost use Rattle.rights.specs.Reached.{Within, AreGoals, GoalsOf};

use clauses::Clauses;
use deck::Refusal;
use reached::Reached;

mod bars;
mod named;
mod reached;

// Refusal 15 of the list, then 16, by what is named to begin with.
fn check(clauses: &Clauses, starts: Reached, bars: &[u16]) -> Result<(), Refusal>
    requires { Within (length (symbol_words clauses.now.deck.words.now)) starts.list.items }
    ensures { (d : Deck) (ms : List Marked) → open_deck clauses.now.deck.words.now ≡ accepted d → starts.list.items ≡ appearing [] (predicates (literals_of ms)) → number_of result ≡ checked_number (check_rights d bars.now ms) }
{
    if !bars::fit(clauses.symbols(), bars) {
        return Err(Refusal::Bars);
    }
    let mut reached = starts;
    reached.spread(clauses);
    if reached.any_barred(bars) {
        return Err(Refusal::Barred);
    }
    Ok(())
}

// Refusals 15 and 16 of a query that was read.
pub fn check_query(clauses: &Clauses, query: &[u16], bars: &[u16]) -> Result<(), Refusal>
    ensures { (d : Deck) (q : List Literal) → open_deck clauses.now.deck.words.now ≡ accepted d → read_query d query.now ≡ accepted q → number_of result ≡ checked_number (check_rights d bars.now (unmarked (first_goal q ∷ []) ++ [])) }
{
    let mut starts = Reached::new();
    starts.add_named(clauses.symbols(), query);
    check(clauses, starts, bars)
}

// The same of open goals, pending and parked, whose words follow one another.
pub fn check_goals(clauses: &Clauses, goals: &[u16], bars: &[u16]) -> Result<(), Refusal>
    requires { GoalsOf clauses.now.deck.words.now goals.now }
    ensures { (d : Deck) (ms : List Marked) → open_deck clauses.now.deck.words.now ≡ accepted d → AreGoals d.symbols goals.now ms → number_of result ≡ checked_number (check_rights d bars.now ms) }
{
    let mut starts = Reached::new();
    starts.add_goals(clauses.symbols(), goals);
    check(clauses, starts, bars)
}
