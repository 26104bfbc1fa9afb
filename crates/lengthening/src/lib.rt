// The lengthened copy of a deck, with one clause more at its end (document 02, U11), and opening it.
#![tactic(auto)]

ghost use Rattle.std.specs.Prelude.{◌≡◌, ◌≤◌, ◌+◌, length, IfOk};
ghost use Rattle.rules.specs.Syntax.{Deck};
ghost use Rattle.rules.specs.Refusals.{accepted, checked_number};
ghost use Rattle.rules.specs.Decks.{header, header_words, open_deck};
ghost use Rattle.rules.specs.Preview.{lengthened, open_copy, add_clause};
ghost use Rattle.deck.specs.Answers.{answer_number, number_of};

use deck::opened::Opened;
use deck::parts::Parts;
use deck::{Refusal, clauses};

// What the added clause is refused for: a copy over 16,384 words, no cells, over 256 cells, not a clause. The deck's own clauses are not looked at.
fn addable(deck: &Opened, cells: &[u16]) -> Result<(), Refusal>
    ensures { (d : Deck) → open_deck deck.now.words.now ≡ accepted d → number_of result ≡ checked_number (add_clause (length deck.now.words.now) d cells.now) }
{
    if 16383 < deck.words.len() + cells.len() {
        return Err(Refusal::Header);
    }
    if cells.is_empty() {
        return Err(Refusal::Starts);
    }
    if 256 < cells.len() {
        return Err(Refusal::LongClause);
    }
    if !clauses::clause(deck.symbols(), cells) {
        return Err(Refusal::Clause);
    }
    Ok(())
}

// The deck alone, by 1 to 5, and then the clause.
pub fn check(deck: &[u16], cells: &[u16], table: &mut [u16; 4096]) -> Result<(), Refusal>
    ensures { number_of result ≡ checked_number (open_copy deck.now cells.now) }
{
    let opened = Opened::new(deck, table)?;
    addable(&opened, cells)
}

// The copy's header: a clause and so many cells more. The casts are proved to fit; `try_from` would have an error that cannot come.
#[tactic(auto, using(deck::proofs::HeaderLaws::header_facts), unfolding(rules::specs::Decks::header_words))]
fn put_header(deck: &Parts, cells: usize, copy: &mut [u16])
    requires { (length copy.old ≡ 8) × (length deck.now.words.now + 1 + cells ≤ 16384) }
    ensures { let ws = deck.now.words.now in copy.new ≡ header_words (header ws 0) (header ws 1) (header ws 3 + 1) (header ws 5 + cells) }
{
    let words = deck.words;
    copy.copy_from_slice(&[
        words[0],
        words[1],
        8,
        words[3] + 1,
        words[4],
        words[5] + cells as u16,
        words[6] + 1,
        words[7] + 1 + cells as u16,
    ]);
}

// The header, the symbols and the clause starts, one start more, the cells, and the clause's.
#[tactic(auto, using(deck::proofs::HeaderLaws::header_facts, crate::proofs::LengthLaws::copy_words))]
fn put(deck: &Parts, cells: &[u16], copy: &mut [u16])
    requires { (length copy.old ≡ length deck.now.words.now + 1 + length cells.now) × (length copy.old ≤ 16384) }
    ensures { copy.new ≡ lengthened deck.now.words.now cells.now }
{
    let words = deck.words;
    let first = usize::from(words[6]);
    let (header, rest) = copy.split_at_mut(8);
    let (before, rest) = rest.split_at_mut(first - 8);
    let (start, rest) = rest.split_at_mut(1);
    let (after, added) = rest.split_at_mut(words.len() - first);
    put_header(deck, cells.len(), header);
    before.copy_from_slice(&words[8..first]);
    start[0] = words[5];
    after.copy_from_slice(&words[first..]);
    added.copy_from_slice(cells);
}

// OPENING THE COPY, which is written into lent words. The deck is checked whole, and of the copy what was added: that is all that can be refused.
pub fn open<'a>(
    deck: &[u16],
    cells: &[u16],
    copy: &'a mut [u16; 16384],
    table: &'a mut [u16; 4096],
) -> Result<Opened<'a>, Refusal>
    ensures number { answer_number result ≡ checked_number (open_copy deck.now cells.now) }
    ensures words { IfOk result (λ opened. opened.words.now ≡ lengthened deck.now cells.now) }
{
    check(deck, cells, table)?;
    let parts = Parts { words: deck };
    let copy = &mut copy[..deck.len() + 1 + cells.len()];
    put(&parts, cells, copy);
    Ok(Opened::known(copy, table))
}
