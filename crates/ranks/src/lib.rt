// Which rules rest on which (document 02, U8): the least levels of a deck's predicates, called ranks here, or the lowest-numbered predicate on a chain
// through a "not" back to itself. A call looks at each cell at most 4,097 times for the ranks, and at most 8,192 times for the predicate.
#![tactic(auto)]

ghost use Rattle.std.specs.Prelude.{◌≡◌};
ghost use Rattle.rules.specs.Syntax.{Deck};
ghost use Rattle.rules.specs.Refusals.{accepted};
ghost use Rattle.rules.specs.Decks.{open_deck};
ghost use Rattle.ranks.specs.Searching.{Named};
ghost use Rattle.ranks.specs.Answers.{Answers, written};

use clauses::Clauses;
use clauses::by_predicate::Index;
use deck::Refusal;
use deck::opened::Opened;

mod literals;
mod raising;
mod searching;

// THE PUBLIC CALL: none where there are levels, else the predicate that is named. The 4,096 numbers go to the list from its start on, as many as it has
// room for; a refusal leaves it as it was.
pub fn levels(deck: &[u16], list: &mut [u16]) -> Result<Option<u16>, Refusal>
    ensures { Answers deck.now result list.old list.new }
{
    let mut table = [0; 4096];
    let opened = Opened::new(deck, &mut table)?;
    let mut numbers = [0; 4096];
    if raising::rank(&opened, &mut numbers) {
        hand(&numbers, list);
        return Ok(None);
    }
    hand(&[0; 4096], list);
    Ok(named(&opened))
}

// The lowest-numbered predicate on a chain through a "not" back to itself, if there is one.
fn named(deck: &Opened) -> Option<u16>
    ensures { (d : Deck) → open_deck deck.now.words.now ≡ accepted d → Named d.clauses result }
{
    let mut index = Index::blank();
    index.fill(deck);
    searching::first_circular(&Clauses::new(*deck, &index))
}

// Copies as many of the numbers as the list has room for.
fn hand(numbers: &[u16], list: &mut [u16])
    ensures { list.new ≡ written numbers.now list.old }
{
    let many = numbers.len().min(list.len());
    list[..many].copy_from_slice(&numbers[..many]);
}
