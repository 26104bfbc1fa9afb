// The public run: its refusals, and an accepted run from the first goal to the report.
#![tactic(auto)]

ghost use Rattle.std.specs.Prelude.{◌≡◌, ℕ, ◌≤◌, length};
ghost use Rattle.rules.specs.Syntax.{Deck};
ghost use Rattle.rules.specs.Refusals.{accepted, checked_number};
ghost use Rattle.rules.specs.Decks.{open_deck};
ghost use Rattle.rules.specs.Run.{check_sizes, Ran};
ghost use Rattle.deck.specs.Answers.{number_of};
ghost use Rattle.top_level.specs.Top.{SomeOpening, RunsStored};
ghost use Rattle.evaluation.specs.Results.{check_fresh, result_of, slices};

use clauses::Clauses;
use clauses::by_predicate::Index;
use deck::Refusal;
use deck::opened::Opened;
use report::Report;
use resolvents::workspace::Workspace;
use top_level::{Parts, Start};

pub mod carry;
pub mod press;
pub mod preview;

// Refusals 6 and 7 of the query, 8 and 9 of the sizes of the store and the scratch, then 13 and 14, loose variables of the deck and the query.
fn refusal(deck: &Opened, query: &[u16], store: usize, scratch: usize) -> Result<(), Refusal>
    ensures { (d : Deck) → open_deck deck.now.words.now ≡ accepted d → number_of result ≡ checked_number (check_fresh d query.now store scratch) }
{
    deck::check_query(deck, query)?;
    sizes(store, scratch)?;
    loose::check(deck, query)
}

// The sizes of the store and the scratch.
fn sizes(store: usize, scratch: usize) -> Result<(), Refusal>
    ensures { number_of result ≡ checked_number (check_sizes store scratch) }
{
    if !(1024..=65535).contains(&store) {
        return Err(Refusal::Store);
    }
    if scratch < 8192 {
        return Err(Refusal::Scratch);
    }
    Ok(())
}

// Answers, store and scratch stay three, as the C interface lends them.
// THE PUBLIC RUN, for a member with the list `bars`: refusals 1 to 5 of the deck come first. A refusal leaves answers, store and scratch untouched. An accepted run fills the answer list from its start,
// and the store begins with the pending goals in order, then the parked ones in order of parking; the rest of the store and the scratch are free.
pub fn run(
    deck: &[u16],
    query: &[u16],
    bars: &[u16],
    budget: u32,
    answers: &mut [u16],
    store: &mut [u16],
    scratch: &mut [u16],
) -> Result<Report, Refusal>
    ensures { Ran deck.now query.now bars.now budget (slices answers.old store.old scratch.old) (result_of result) (slices answers.new store.new scratch.new) }
{
    let mut table = [0; 4096];
    let opened = Opened::new(deck, &mut table)?;
    run_opened(opened, query, bars, budget, answers, store, scratch)
}

// A run over a deck that opened. Refusals 15 and 16 come last.
fn run_opened(
    opened: Opened,
    query: &[u16],
    bars: &[u16],
    budget: u32,
    answers: &mut [u16],
    store: &mut [u16],
    scratch: &mut [u16],
) -> Result<Report, Refusal>
    ensures { Ran opened.entry.words.now query.now bars.now budget (slices answers.old store.old scratch.old) (result_of result) (slices answers.new store.new scratch.new) }
{
    refusal(&opened, query, store.len(), scratch.len())?;
    let mut index = Index::blank();
    index.fill(&opened);
    let clauses = Clauses::new(opened, &index);
    rights::check_query(&clauses, query, bars)?;
    let held = top_level::first(query, store);
    let parts = Parts { parked: 0, held };
    let start = Start { parts, budget };
    Ok(from_goals(&clauses, start, answers, store, scratch))
}

// The evaluation from goals that are stored as a run holds them.
fn from_goals(
    clauses: &Clauses,
    start: Start,
    answers: &mut [u16],
    store: &mut [u16],
    scratch: &mut [u16],
) -> Report
    requires opening { SomeOpening clauses.now.deck.words.now store.old start.parts.parked start.parts.held }
    requires short_store { length store.old ≤ 65535 }
    requires room { 8192 ≤ length scratch.old }
    ensures { RunsStored clauses.now.deck.words.now answers.old store.old start.parts.parked start.parts.held start.budget answers.new store.new result }
{
    let mut work = Workspace::new(scratch);
    top_level::top(clauses, start, answers, store, &mut work)
}
