// A query's result as if one clause were added at the deck's end (document 02, U11).
ghost use Rattle.rules.specs.Preview.{Previewed};
ghost use Rattle.evaluation.specs.Results.{result_of, slices};

use crate::run_opened;
use deck::Refusal;
use report::Report;

// THE PUBLIC CALL: refusals 1 to 5 of the deck, then 1, 3, 4 and 5 of its copy with the clause, which is local to the call, and then a run's over that copy.
// The deck stays as it is. What is returned and left is a run's over the copy.
pub fn preview(
    deck: &[u16],
    clause: &[u16],
    query: &[u16],
    bars: &[u16],
    budget: u32,
    answers: &mut [u16],
    store: &mut [u16],
    scratch: &mut [u16],
) -> Result<Report, Refusal>
    ensures { Previewed deck.now clause.now query.now bars.now budget (slices answers.old store.old scratch.old) (result_of result) (slices answers.new store.new scratch.new) }
{
    let mut copy = [0; 16384];
    let mut table = [0; 4096];
    let opened = lengthening::open(deck, clause, &mut copy, &mut table)?;
    run_opened(opened, query, bars, budget, answers, store, scratch)
}
