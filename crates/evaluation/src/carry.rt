// Carrying on from the open goals in the store (document 02, U4).
ghost use Rattle.std.specs.Prelude.{◌≡◌, ◌≤◌, length, IfOk};
ghost use Rattle.rules.specs.Syntax.{Deck};
ghost use Rattle.rules.specs.Refusals.{accepted};
ghost use Rattle.rules.specs.Decks.{open_deck};
ghost use Rattle.rules.specs.Run.{carry, RanOn};
ghost use Rattle.clauses.specs.Index.{EmptyIndex};
ghost use Rattle.evaluation.specs.Results.{check_goals, result_of, slices, admitted, places, OpenAs, CarriedAs, Resumed};

use crate::{from_goals, sizes};
use clauses::Clauses;
use clauses::by_predicate::Index;
use deck::Refusal;
use deck::opened::Opened;
use report::Report;
use stored::OpenCounts;
use top_level::{Parts, Start};

// The places after the pending goals and after the parked ones; or refusal 12 of the goals, then 13 of the deck.
fn open_goals(deck: &Opened, counts: OpenCounts, store: &[u16]) -> Result<(usize, usize), Refusal>
    ensures { (d : Deck) → open_deck deck.now.words.now ≡ accepted d → OpenAs d.symbols (check_goals d counts.pending counts.parked counts.terms store.now) store.now result }
{
    let goals = stored::deck_goals(deck, store, counts).ok_or(Refusal::Goals)?;
    if !loose::clauses_tight(deck) {
        return Err(Refusal::LooseClause);
    }
    Ok(goals)
}

// Open goals that are let through: the deck's clauses, and the places in the store after the pending goals and after the parked ones.
#[derive(Clone, Copy)]
pub(crate) struct Open<'a> {
    pub clauses: Clauses<'a>,
    pub held: usize,
    pub end: usize,
}

// Refusals 1 to 5 of the deck, 8 and 9 of the sizes, 12 of the goals, 13 of the deck, then 15 and 16 of the member's list; or the open goals.
pub(crate) fn carried<'a>(
    deck: &'a [u16],
    counts: OpenCounts,
    bars: &[u16],
    store: &[u16],
    scratch: &[u16],
    table: &'a mut [u16; 4096],
    index: &'a mut Index,
) -> Result<Open<'a>, Refusal>
    requires { EmptyIndex index.old }
    ensures goals { CarriedAs (admitted (carry deck.now counts.pending counts.parked counts.terms store.now (length scratch.now)) bars.now) store.now (places result) }
    ensures words { IfOk result (λ o. o.clauses.deck.words.now ≡ deck.now) }
{
    let opened = Opened::new(deck, table)?;
    sizes(store.len(), scratch.len())?;
    let (held, end) = open_goals(&opened, counts, store)?;
    index.fill(&opened);
    let clauses = Clauses::new(opened, index);
    rights::check_goals(&clauses, &store[..end], bars)?;
    Ok(Open { clauses, held, end })
}

// THE PUBLIC CALL: a run that carries on from the goals that the store begins with, `pending` of them pending and then `parked` of them parked, each of
// `terms` answer terms. Refusals 1 to 5 of the deck, 8 and 9 of the sizes, then 12 of the goals, 13 of the deck, and 15 and 16 of the member's list. A refusal leaves answers, store
// and scratch untouched. An accepted run leaves what a fresh one does.
pub fn carry_on(
    deck: &[u16],
    pending: u64,
    parked: u64,
    terms: u64,
    bars: &[u16],
    budget: u32,
    answers: &mut [u16],
    store: &mut [u16],
    scratch: &mut [u16],
) -> Result<Report, Refusal>
    ensures { RanOn deck.now pending parked terms bars.now budget (slices answers.old store.old scratch.old) (result_of result) (slices answers.new store.new scratch.new) }
{
    let mut table = [0; 4096];
    let mut index = Index::blank();
    let counts = OpenCounts {
        pending,
        parked,
        terms,
    };
    let open = carried(deck, counts, bars, store, scratch, &mut table, &mut index)?;
    let start = resume(open.held, open.end, budget, store);
    Ok(from_goals(&open.clauses, start, answers, store, scratch))
}

// The goals as a run holds them, to start from.
pub(crate) fn resume(held: usize, end: usize, budget: u32, store: &mut [u16]) -> Start
    requires { (held ≤ end) × (end ≤ length store.old) }
    ensures { Resumed store.old held end budget store.new result }
{
    top_level::resume(store, held, end);
    let parked = end - held;
    let parts = Parts { parked, held };
    Start { parts, budget }
}
