// The programs that keep open goals and carry on from them, as functions on bytes (document 02, U4), for a member (U9): from the bytes of their
// inputs to the bytes that are printed and those of the goals left.
#![tactic(auto)]

ghost use Rattle.std.specs.Prelude.{◌≤◌, length};
ghost use Rattle.std.proofs.Math.Option.{some};
ghost use Rattle.rules.specs.CarryProgram.{budget_from, open_words, open_run, carry_bytes, carry_run};
ghost use Rattle.listing.specs.Printed.{file_of};
ghost use Rattle.carry_program.specs.Ends.{Both, Leaves};

use bars::bars_of;
use deck::Refusal;
use deck::opened::Opened;
use ending::Ending;
use input::{budget, goals_file, number};
use listing::input::read_words;
use output::{Outputs, or_refusal};
use program::input::{opened_deck, query_words};
use program::lists::Lists;
use resolvents::fresh::variables;

pub mod bars;
mod ending;
pub mod input;
pub mod output;

// As the program, with a member's list and a budget in files, if there are any, and with the goals left. Both outputs begin with their bytes, and their other bytes stay.
pub fn open_printed(
    deck: Option<&[u8]>,
    query: &[u8],
    bars: Option<&[u8]>,
    limit: Option<&[u8]>,
    out: &mut [u8; 65605],
    left: &mut [u8; 32792],
) -> Outputs
    ensures { Both (open_run (file_of deck.entry) query.now (file_of bars.entry) (budget_from (file_of limit.entry))) out.old left.old result.listing result.goals out.new left.new }
{
    let most = budget(limit);
    let printed = asked(deck, query, bars, most, out, left);
    or_refusal(printed, out)
}

// The outputs, or why there are none.
// Both rooms are parameters: a struct of the two would have to promise in each function that it still lends the same two.
fn asked(
    deck: Option<&[u8]>,
    query: &[u8],
    bars: Option<&[u8]>,
    budget: u32,
    out: &mut [u8; 65605],
    left: &mut [u8; 32792],
) -> Result<Outputs, Refusal>
    ensures { Leaves (open_run (file_of deck.entry) query.now (file_of bars.entry) budget) out.old left.old result out.new left.new }
{
    let mut deck_room = [0u16; 16384];
    let mut query_room = [0u16; 500];
    let deck = opened_deck(deck, &mut deck_room)?;
    let query = query_words(query, &mut query_room)?;
    open_run(deck, query, bars, budget, out, left)
}

// The same from the words of both inputs on.
fn open_run(
    deck: &[u16],
    query: &[u16],
    bars: Option<&[u8]>,
    budget: u32,
    out: &mut [u8; 65605],
    left: &mut [u8; 32792],
) -> Result<Outputs, Refusal>
    ensures { Leaves (open_words deck.now query.now (file_of bars.entry) budget) out.old left.old result out.new left.new }
{
    let mut table = [0; 4096];
    let opened = Opened::new(deck, &mut table)?;
    let mut room = [0; 4096];
    let bars = bars_of(&opened, bars, &mut room);
    let mut lists = Lists::new();
    // `as`, since `u64` has no `From` of `usize`.
    let terms = variables(query) as u64;
    let report = evaluation::run(
        deck,
        query,
        bars,
        budget,
        &mut lists.answers,
        &mut lists.store,
        &mut lists.scratch,
    )?;
    let ending = Ending {
        report,
        deck: opened,
        terms,
        lists: &lists,
    };
    Ok(ending.put(out, left))
}

// Carries on from a file of goals, if there is one, with a member's list in a file, if there is one, and a budget.
pub fn carry_printed(
    deck: Option<&[u8]>,
    goals: Option<&[u8]>,
    bars: Option<&[u8]>,
    limit: &[u8],
    out: &mut [u8; 65605],
    left: &mut [u8; 32792],
) -> Outputs
    ensures { Both (carry_run (file_of deck.entry) (file_of goals.entry) (file_of bars.entry) (budget_from (some limit.now))) out.old left.old result.listing result.goals out.new left.new }
{
    let most = budget(Some(limit));
    let printed = carried(deck, goals, bars, most, out, left);
    or_refusal(printed, out)
}

// The outputs, or why there are none.
fn carried(
    deck: Option<&[u8]>,
    goals: Option<&[u8]>,
    bars: Option<&[u8]>,
    budget: u32,
    out: &mut [u8; 65605],
    left: &mut [u8; 32792],
) -> Result<Outputs, Refusal>
    ensures { Leaves (carry_run (file_of deck.entry) (file_of goals.entry) (file_of bars.entry) budget) out.old left.old result out.new left.new }
{
    let mut room = [0u16; 16384];
    let deck = opened_deck(deck, &mut room)?;
    let goals = goals_file(goals)?;
    carry_run(deck, goals, bars, budget, out, left)
}

// The same from the deck's words and a file of goals of a possible length on.
// As open_run but for the call (d): a closure for it would need the clauses of `run` and `carry_on` in the source.
fn carry_run(
    deck: &[u16],
    goals: &[u8],
    bars: Option<&[u8]>,
    budget: u32,
    out: &mut [u8; 65605],
    left: &mut [u8; 32792],
) -> Result<Outputs, Refusal>
    requires { (24 ≤ length goals.now) × (length goals.now ≤ 32792) }
    ensures { Leaves (carry_bytes deck.now goals.now (file_of bars.entry) budget) out.old left.old result out.new left.new }
{
    let mut table = [0; 4096];
    let opened = Opened::new(deck, &mut table)?;
    let mut room = [0; 4096];
    let bars = bars_of(&opened, bars, &mut room);
    let mut lists = Lists::new();
    // The file's format: three numbers of 8 bytes, then words.
    let pending = number(goals, 0);
    let parked = number(goals, 8);
    let terms = number(goals, 16);
    read_words(&goals[24..], &mut lists.store);
    let report = evaluation::carry::carry_on(
        deck,
        pending,
        parked,
        terms,
        bars,
        budget,
        &mut lists.answers,
        &mut lists.store,
        &mut lists.scratch,
    )?;
    let ending = Ending {
        report,
        deck: opened,
        terms,
        lists: &lists,
    };
    Ok(ending.put(out, left))
}
