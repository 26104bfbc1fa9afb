// Drill terms (document 02, U12): all variable-free terms of at most n cells over the deck's functors, in order, after a given one.
// A call goes through the symbols at most 28 times besides the check of the deck, and at most 16 times more for each term that it makes (those written, and one more).
#![tactic(auto)]

ghost use Rattle.std.specs.Prelude.{◌≤◌, ◌≡◌, length};
ghost use Rattle.rules.specs.Refusals.{accepted};
ghost use Rattle.rules.specs.Drill.{drill, list_after, fitting};
ghost use Rattle.deck.specs.Kinds.{symbols_of};
ghost use Rattle.drill.specs.Successors.{fills, rest_after, Given, Accepts};
ghost use Rattle.drill.specs.Holding.{cells_of};
ghost use Rattle.drill.specs.Listing.{terms_left};
ghost use Rattle.drill.specs.Answers.{Answers};

use deck::Refusal;
use deck::opened::Opened;
use successor::Functors;
use term::Term;
use terms::Terms;

mod successor;
mod table;
mod term;
mod terms;

// Whether cells are one variable-free term.
fn is_term(symbols: &[u16], cells: &[u16]) -> bool
    requires { length cells.now ≤ 8 }
    ensures { result ≡ fills (symbols_of symbols.now) 1 cells.now }
{
    let mut places: usize = 1;
    for cell in cells {
        let f = usize::from(*cell);
        let Some(rest) = places.checked_sub(1) else {
            return false;
        };
        if signature::count(symbols) <= f {
            return false;
        }
        if signature::is_predicate(symbols, f) {
            return false;
        }
        places = signature::arity(symbols, f) + rest;
    }
    places == 0
}

// Writes the terms, as many as fit whole; their number, which `leads_drill` tells. Counted by hand: it is returned in two places, and `enumerate` has none after the last item.
fn write(terms: Terms, out: &mut [u16]) -> usize
    ensures number { result ≡ length (fitting (length out.old) (terms_left terms.entry)) }
    ensures list { out.new ≡ list_after (accepted (fitting (length out.old) (terms_left terms.entry))) out.old }
{
    let mut at = 0;
    let mut count = 0;
    for term in terms {
        let size = term.size;
        if out.len() - at < size {
            return count;
        }
        out[at..at + size].copy_from_slice(term.cells());
        at += size;
        count += 1;
    }
    count
}

// Refusal 19 is not due: n is at most 8, and the given cells are none or a term of at most n cells.
// Tests one after another: as one expression with `&&` its proof is a case for each of them.
fn accepts(symbols: &[u16], n: usize, given: &[u16]) -> bool
    ensures { Accepts (symbols_of symbols.now) n given.now result }
{
    if 8 < n {
        return false;
    }
    if given.is_empty() {
        return true;
    }
    if n < given.len() {
        return false;
    }
    is_term(symbols, given)
}

// Writes the terms of at most n cells after the given one, as many as fit whole; their number, which `leads_drill` tells.
fn list(symbols: &[u16], n: usize, given: &[u16], out: &mut [u16]) -> usize
    requires { (length symbols.now ≤ 4096) × Given (symbols_of symbols.now) n given.now }
    ensures number { result ≡ length (fitting (length out.old) (rest_after (symbols_of symbols.now) n given.now)) }
    ensures list { out.new ≡ list_after (accepted (fitting (length out.old) (rest_after (symbols_of symbols.now) n given.now))) out.old }
{
    let functors = Functors::new(symbols);
    let last = given_term(given);
    let terms = Terms { functors, n, last };
    write(terms, out)
}

// The given term, if there is one.
fn given_term(given: &[u16]) -> Option<Term>
    requires { length given.now ≤ 8 }
    ensures { cells_of result ≡ given.now }
{
    if given.is_empty() {
        return None;
    }
    Some(Term::new(given))
}

// THE PUBLIC CALL: how many terms were written. A refusal leaves the lent list untouched; else the cells of the terms stand at its start, one after another, and the rest is untouched.
pub fn drill(deck: &[u16], n: u32, given: &[u16], out: &mut [u16]) -> Result<usize, Refusal>
    ensures answers { Answers (drill deck.now n given.now (length out.old)) result }
    ensures out_after { out.new ≡ list_after (drill deck.now n given.now (length out.old)) out.old }
{
    let mut table = [0; 4096];
    let opened = Opened::new(deck, &mut table)?;
    let symbols = opened.symbols();
    let Ok(size) = usize::try_from(n) else {
        return Err(Refusal::Drill);
    };
    if !accepts(symbols, size, given) {
        return Err(Refusal::Drill);
    }
    Ok(list(symbols, size, given, out))
}
