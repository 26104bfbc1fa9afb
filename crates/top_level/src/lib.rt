// Level 0: its answers go to the answer list, its parked goals stay at the start of the store.
// `as` is proved to lose nothing in this file; `try_from` would want an answer for what does not fit.
#![tactic(auto)]

ghost use Rattle.std.specs.Prelude.{◌≡◌, ℕ, ◌+◌, ◌-◌, ◌≤◌, ◌<◌, List, [], ◌∷◌, length, Ok};
ghost use Rattle.rules.specs.Syntax.{Symbol, Literal, Goal};
ghost use Rattle.rules.specs.Refusals.{accepted};
ghost use Rattle.rules.specs.Decks.{open_deck};
ghost use Rattle.rules.specs.Goals.{Marked, first_goal};
ghost use Rattle.rules.specs.Evaluation.{Level, stopped};
ghost use Rattle.report.specs.Reports.{stop_of};
ghost use Rattle.goals.specs.Store.{Holding};
ghost use Rattle.top_level.specs.Top.{Stored, SomeStored, ParksFirst, Written, SomeWritten, Queries, SomeQuery, Ordered, Totalled, TopLevelEnds, of_report, Started, Again, step_then, Goes, SomeGoes, Bare, SomeBare, Stepped, SomeStepped, Follows, Due, Stops, SomeStops, opening, SomeOpening, RunsStored, PressesStored, InOrder, begun, end_of, advance_by};

use clauses::Clauses;
use goals::{MARK, Mark};
use levels::{Account, Halt, Turn, take_step};
use report::{Advance, Pressed, Report, Stop};
use resolvents::fresh::variables;
use resolvents::workspace::Workspace;

// The cell of the first variable; those of the others follow it. Written here too: this crate does not stand on `matching`.
const VARIABLE: usize = 32768;

// The numbers of pending and parked goals.
#[derive(Clone, Copy, Debug, PartialEq, Eq)]
pub struct Counts {
    pub pending: usize,
    pub parked: usize,
}

// How many words of the store the parked goals take, and how many the pending ones after them.
#[derive(Clone, Copy, Debug, PartialEq, Eq)]
pub struct Parts {
    pub parked: usize,
    pub held: usize,
}

// What level 0 starts on: the goals stored; the budget.
#[derive(Clone, Copy, Debug, PartialEq, Eq)]
pub struct Start {
    pub parts: Parts,
    pub budget: u32,
}

// Level 0 between two steps: its goals in the store; the account; how many words its answers take, and how many they are.
// The store and the answer list stay beside it: a step is taken in &mut store[parked..], so a struct round them would be taken apart at each turn.
#[derive(Clone, Copy, Debug, PartialEq, Eq)]
pub struct Progress {
    pub parts: Parts,
    pub account: Account,
    pub filled: usize,
    pub listed: u64,
}

impl Progress {
    // Where it starts: no step is taken, and nothing is listed.
    fn first(start: Start) -> Progress
        ensures { result ≡ begun start }
    {
        let Start { parts, budget } = start;
        Progress {
            parts,
            account: Account::new(budget),
            filled: 0,
            listed: 0,
        }
    }

    // The end, where a step halts.
    fn halted(self, halt: Halt) -> End
        ensures { result ≡ end_of self halt }
    {
        let Halt { stop, account } = halt;
        End {
            stop,
            at: Progress { account, ..self },
        }
    }
}

// Level 0 where it stops.
#[derive(Clone, Copy, Debug, PartialEq, Eq)]
pub struct End {
    pub stop: Stop,
    pub at: Progress,
}

// What the steps came to, in numbers.
#[derive(Clone, Copy, Debug, PartialEq, Eq)]
pub struct Totals {
    pub steps: u32,
    pub cost: u32,
    pub answers: u64,
    pub pending: u32,
    pub parked: u32,
}

// Parks the first pending goal: it goes behind the parked ones. The result is its number of words, the last word held: a function for this one read
// would be all contract.
fn park(store: &mut [u16], parts: Parts, mark: Mark) -> usize
    requires stored { SomeStored store.old parts.parked parts.held }
    requires pending { 0 < parts.held }
    ensures { ParksFirst store.old parts.parked parts.held mark store.new result }
{
    let Parts { parked, held } = parts;
    let end = parked + held;
    let length = usize::from(store[end - 1]);
    store[parked..end].reverse();
    store[parked + length..end].reverse();
    store[parked] += u16::from(mark);
    length
}

// The first pending goal, which has no literals, goes to the answer list; or there is no room for it there.
fn list(at: Progress, answers: &mut [u16], store: &[u16]) -> Result<Progress, End>
    requires { SomeBare answers.old store.now at }
    ensures { (s : Started) (again : Again) → Bare s again answers.old store.now at → Follows s again at.account.left answers.new store.now result }
{
    let Parts { parked, held } = at.parts;
    let end = parked + held;
    let n = usize::from(store[end - 1]);
    if answers.len() - at.filled < n {
        let stop = Stop::Answers;
        return Err(End { stop, at });
    }
    let filled = at.filled + n;
    words::mirror(&store[end - n..end], &mut answers[at.filled..filled]);
    Ok(Progress {
        parts: Parts {
            parked,
            held: held - n,
        },
        account: at.account.pay_one(),
        filled,
        listed: at.listed + 1,
    })
}

// Level 0 after a step.
fn follow(
    taken: Result<Turn, Halt>,
    at: Progress,
    answers: &mut [u16],
    store: &mut [u16],
) -> Result<Progress, End>
    requires { SomeStepped answers.old store.old at taken }
    ensures { (s : Started) (again : Again) → Stepped s again answers.old store.old at taken → Follows s again at.account.left answers.new store.new result }
{
    match taken.map_err(|halt| at.halted(halt))? {
        Turn::Empty => list(at, answers, store),
        Turn::Park(mark, account) => {
            let n = park(store, at.parts, mark);
            let parts = Parts {
                parked: at.parts.parked + n,
                held: at.parts.held - n,
            };
            Ok(Progress {
                parts,
                account,
                ..at
            })
        }
        Turn::More(held, account) => {
            let parts = Parts { held, ..at.parts };
            Ok(Progress {
                parts,
                account,
                ..at
            })
        }
    }
}

// Level 0 is finished where nothing is pending, and stops where nothing is left of the budget.
fn due(at: &Progress) -> Result<(), End>
    ensures { (s : Started) (again : Again) (k : ℕ) (answers store : List ℕ) → Follows s (step_then s again) k answers store (Ok at.now) → Due s (step_then s again) k answers store at.now result }
{
    if at.parts.held == 0 {
        let stop = Stop::Finished;
        return Err(End { stop, at: *at });
    }
    let left = at.account.left();
    if left == 0 {
        let stop = Stop::Budget;
        return Err(End { stop, at: *at });
    }
    Ok(())
}

// A step on the first pending goal, if one is due. Clauses and workspace stay two, as at levels' `take_step`.
fn turn(
    clauses: &Clauses<'_>,
    at: Progress,
    answers: &mut [u16],
    store: &mut [u16],
    work: &mut Workspace<'_>,
) -> Result<Progress, End>
    requires { SomeGoes clauses.now.deck.words.now answers.old store.old at }
    ensures { (s : Started) (again : Again) → open_deck clauses.now.deck.words.now ≡ accepted s.deck → Goes s (step_then s again) answers.old store.old at → Follows s again at.account.left answers.new store.new result }
{
    due(&at)?;
    let account = at.account;
    let part = &mut store[at.parts.parked..];
    let taken = take_step(clauses, 32, part, at.parts.held, account, work);
    follow(taken, at, answers, store)
}

// Puts the goals that are left in order, and counts.
fn order_and_count(at: Progress, budget: u32, store: &mut [u16]) -> Totals
    requires stored { SomeStored store.old at.parts.parked at.parts.held }
    requires within_budget { at.account.left ≤ budget }
    requires short_store { length store.old ≤ 65535 }
    ensures { (S : List Symbol) (l : Level) → Stored S store.old at.parts.parked at.parts.held l → Totalled at budget l store.new result }
{
    let steps = at.account.steps();
    let left = at.account.left();
    let Counts { pending, parked } = order_goals(store, at.parts);
    Totals {
        steps,
        cost: budget - left,
        answers: at.listed,
        pending: pending as u32,
        parked: parked as u32,
    }
}

// Puts the goals that are left in order, and reports.
fn report(end: End, budget: u32, store: &mut [u16]) -> Report
    requires stops { SomeStops store.old end }
    requires within_budget { end.at.account.left ≤ budget }
    requires short_store { length store.old ≤ 65535 }
    ensures { (s : Started) (answers : List ℕ) → s.budget ≡ budget → Stops s answers store.old end → TopLevelEnds s.ends (stopped (stop_of result.stop)) s.answers s.budget answers store.new (of_report result) }
{
    let End { stop, at } = end;
    let Totals {
        steps,
        cost,
        answers,
        pending,
        parked,
    } = order_and_count(at, budget, store);
    Report {
        stop,
        steps,
        cost,
        answers,
        pending,
        parked,
    }
}

// Runs level 0 from the goals stored until it stops, and puts the goals that are left in order. That the store is short is a clause of five functions:
// the store is the caller's slice, lent again in parts, so a type round it would be made anew at each.
pub fn top(
    clauses: &Clauses<'_>,
    start: Start,
    answers: &mut [u16],
    store: &mut [u16],
    work: &mut Workspace<'_>,
) -> Report
    requires opening { SomeOpening clauses.now.deck.words.now store.old start.parts.parked start.parts.held }
    requires short_store { length store.old ≤ 65535 }
    ensures { RunsStored clauses.now.deck.words.now answers.old store.old start.parts.parked start.parts.held start.budget answers.new store.new result }
{
    let budget = start.budget;
    let mut at = Progress::first(start);
    // No range to go over: a turn says where the run ends.
    loop {
        match turn(clauses, at, answers, store, work) {
            Ok(next) => {
                at = next;
            }
            Err(end) => {
                return report(end, budget, store);
            }
        }
    }
}

// Whether the step was taken, and level 0 as it is then.
fn advanced(taken: Result<Progress, End>) -> (Advance, Progress)
    ensures { result ≡ advance_by taken }
{
    match taken {
        Ok(at) => (Advance::Stepped, at),
        Err(End { stop, at }) => (Advance::Prevented(stop), at),
    }
}

// One step of level 0 from the goals stored, with all of its inner levels, and the goals that are left in order.
pub fn press(
    clauses: &Clauses<'_>,
    start: Start,
    answers: &mut [u16],
    store: &mut [u16],
    work: &mut Workspace<'_>,
) -> Pressed
    requires opening { SomeOpening clauses.now.deck.words.now store.old start.parts.parked start.parts.held }
    requires short_store { length store.old ≤ 65535 }
    ensures { PressesStored clauses.now.deck.words.now answers.old store.old start.parts.parked start.parts.held start.budget answers.new store.new result }
{
    let budget = start.budget;
    let taken = turn(clauses, Progress::first(start), answers, store, work);
    let (advance, at) = advanced(taken);
    let Totals {
        steps,
        cost,
        answers: listed,
        pending,
        parked,
    } = order_and_count(at, budget, store);
    Pressed {
        advance,
        steps,
        cost,
        answers: listed,
        pending,
        parked,
    }
}

// Puts the pending goals at the start of the store, in order, and the parked ones behind them, and counts both.
fn order_goals(store: &mut [u16], parts: Parts) -> Counts
    requires { SomeStored store.old parts.parked parts.held }
    ensures ordered { (S : List Symbol) (l : Level) → Stored S store.old parts.parked parts.held l → Ordered l store.new result }
    ensures few { (result.pending ≤ length store.old) × (result.parked ≤ length store.old) }
{
    let Parts { parked, held } = parts;
    let end = parked + held;
    store[..end].reverse();
    store[held..end].reverse();
    Counts {
        pending: count_goals(&store[..held]),
        parked: count_goals(&store[held..end]),
    }
}

// How many goals stand one after another in the words.
fn count_goals(words: &[u16]) -> usize
    requires { SomeWritten words.now }
    ensures count { (S : List Symbol) (ms : List Marked) → Written S words.now ms → result ≡ length ms }
    ensures few { result ≤ length words.now }
{
    let mut rest = words;
    let mut n = 0;
    // An iterator of goals would be a struct with its ghost members, for this one loop.
    while let [first, ..] = rest {
        rest = &rest[usize::from(*first % MARK)..];
        n += 1;
    }
    n
}

// Goals in order, the pending ones up to `held` and the parked ones up to `until`, as a run holds them.
pub fn resume(store: &mut [u16], held: usize, until: usize)
    requires { (held ≤ until) × (until ≤ length store.old) }
    ensures { (S : List Symbol) (gs : List Goal) (ms : List Marked) → InOrder S store.old held until gs ms → Stored S store.new (until - held) held (opening gs ms) }
{
    store[held..until].reverse();
    store[..until].reverse();
}

// Writes the first goal of a query, mirrored, at the start of the store. The result is its number of words.
pub fn first(query: &[u16], store: &mut [u16]) -> usize
    requires query { SomeQuery query.now }
    requires room { 1024 ≤ length store.old }
    ensures { (ar : List ℕ) (S : List Symbol) (q : List Literal) → Queries ar query.now S q → Holding S store.new result (first_goal q ∷ []) }
{
    let n = variables(query);
    let held = 2 + n + query.len();
    store[0] = held as u16;
    store[1] = n as u16;
    for i in 0..n {
        store[2 + i] = (VARIABLE + i) as u16;
    }
    words::copy(query, &mut store[2 + n..held]);
    store[..held].reverse();
    held
}
