// A step, the decision of a negative literal by a new level, and a level's run call each other: the levels left fall.
#![tactic(auto)]

ghost use Rattle.std.specs.Prelude.{◌≡◌, ◌+◌, ◌-◌, ◌≤◌, ◌<◌, List, length, take, IfOk};
ghost use Rattle.rules.specs.Syntax.{Deck, Goal};
ghost use Rattle.rules.specs.Refusals.{accepted};
ghost use Rattle.rules.specs.Decks.{open_deck};
ghost use Rattle.rules.specs.Evaluation.{opening};
ghost use Rattle.goals.specs.Store.{Holding, SomeHolding, SomeFirst};
ghost use Rattle.levels.specs.Levels.{paid, paid_one, TurnsFirst, TurnsNegative, SettlesNegative, Replied, SomeDecision, DecidesAtom, SomeNegates, SomeNegating, expanded_to, verdict_for, finished_by};

use clauses::Clauses;
use derivation::{Derived, derive};
use goals::{Mark, ask, remove};
use report::Stop;
use resolvents::resolve::Call;
use resolvents::select::{Selected, select_literal};
use resolvents::workspace::Workspace;
use std::marker::Model;

// What is left of the budget, and the steps taken so far, over all levels: together at most the budget.
#[derive(Clone, Copy, Debug, PartialEq, Eq)]
pub struct Account {
    left: u32,
    steps: u32,
}

impl Model for Account {
    ghost use Rattle.std.specs.Prelude.{◌+◌, ◌<◌};
    ghost use Rattle.rules.specs.Evaluation as rules;

    ghost Value = { rules.Account };

    ghost view = { λ a. record { left = a.left; steps = a.steps } };

    ghost invariant = { λ a. a.steps + a.left < 4294967296 };

    ghost inverse = { λ v. record { left = v.left; steps = v.steps } };
}

impl Account {
    // Before the first step.
    pub fn new(budget: u32) -> Account
        ensures { result ≡ opening budget }
    {
        Account {
            left: budget,
            steps: 0,
        }
    }

    // What is left of the budget.
    pub fn left(self) -> u32
        ensures { result ≡ self.left }
    {
        self.left
    }

    // The steps taken so far.
    pub fn steps(self) -> u32
        ensures { result ≡ self.steps }
    {
        self.steps
    }

    // After a step that leaves `left`.
    fn pay(self, left: u32) -> Account
        requires { left < self.left }
        ensures { result ≡ paid self left }
    {
        let steps = self.steps + 1;
        Account { left, steps }
    }

    // After a step that costs 1. That something is left stays a clause: a type of accounts that can pay would be made at each turn and taken
    // apart at once.
    pub fn pay_one(self) -> Account
        requires { 0 < self.left }
        ensures { result ≡ paid_one self }
    {
        self.pay(self.left - 1)
    }
}

// What a step came to, with the account after it: the goal has no literals (the step is not taken here); it is to be parked;
// or the goals held now.
#[derive(Clone, Copy, Debug, PartialEq, Eq)]
pub enum Turn {
    Empty,
    Park(Mark, Account),
    More(usize, Account),
}

// Where the run stops: why, and the account then.
#[derive(Clone, Copy, Debug, PartialEq, Eq)]
pub struct Halt {
    pub stop: Stop,
    pub account: Account,
}

// What a new level says of its atom.
#[derive(Clone, Copy, Debug, PartialEq, Eq)]
pub enum Verdict {
    Succeeds,
    Fails,
    Unsettled,
}

#[derive(Clone, Copy, Debug, PartialEq, Eq)]
pub struct Reply {
    pub verdict: Verdict,
    pub account: Account,
}

// One step on the first goal of the words held. Store and held stay two: a deeper level works in a part of the store, and level 0 past the goals
// parked, so that a struct of both would be made anew each time. Clauses and workspace too: each contract would have to say that the clauses are the same.
#[cycle(decide_level_negate_take_step)]
pub fn take_step(
    clauses: &Clauses<'_>,
    below: usize,
    store: &mut [u16],
    held: usize,
    account: Account,
    work: &mut Workspace<'_>,
) -> Result<Turn, Halt>
    requires first { SomeFirst clauses.now.deck.words.now store.old held }
    requires pays { 0 < account.left }
    ensures { TurnsFirst clauses.now.deck.words.now below store.old held account store.new result }
{
    let length = usize::from(store[held - 1]);
    let answer_cells = usize::from(store[held - 2]);
    let len = length - 2;
    if answer_cells == len {
        return Ok(Turn::Empty);
    }
    let end = held - 2;
    words::mirror(&store[end - len..end], &mut work.cells[..len]);
    let selected = select_literal(work.goal(len), clauses.symbols(), answer_cells);
    match selected {
        Selected::Nothing => Ok(Turn::Park(Mark::Floundered, account.pay_one())),
        Selected::Positive(s, e) => {
            let call = Call {
                len,
                answer_cells,
                s,
                e,
            };
            let derived = derive(clauses, store, held, call, account.left(), work);
            expanded(derived, account)
        }
        Selected::Negative(s, e) => {
            let call = Call {
                len,
                answer_cells,
                s,
                e,
            };
            negate(clauses, below, store, held, call, account, work)
        }
    }
}

// A step on a selected positive literal, by what became of the derived goals.
fn expanded(derived: Result<Derived, Stop>, account: Account) -> Result<Turn, Halt>
    requires { IfOk derived (λ r. r.left < account.left) }
    ensures { result ≡ expanded_to derived account }
{
    let Derived { held, left } = derived.map_err(|stop| Halt { stop, account })?;
    let account = account.pay(left);
    match held {
        Some(held) => Ok(Turn::More(held, account)),
        None => Ok(Turn::Park(Mark::Oversized, account)),
    }
}

// A step on a selected negative literal.
#[cycle(decide_level_negate_take_step)]
fn negate(
    clauses: &Clauses<'_>,
    below: usize,
    store: &mut [u16],
    held: usize,
    call: Call,
    account: Account,
    work: &mut Workspace<'_>,
) -> Result<Turn, Halt>
    requires negating { SomeNegating clauses.now.deck.words.now store.old work.old.cells.now held call.s call.e }
    requires pays { 0 < account.left }
    ensures { TurnsNegative clauses.now.deck.words.now below store.old work.old.cells.now held call.s call.e account store.new result }
{
    if below == 0 {
        return Ok(Turn::Park(Mark::Deep, account.pay_one()));
    }
    let Call { s, e, .. } = call;
    if store.len() - held < e - s + 2 {
        let stop = Stop::Store;
        return Err(Halt { stop, account });
    }
    let paid = account.pay_one();
    let inner = decide(clauses, below, store, held, call, paid, work);
    settle(store, held, s, e, inner)
}

// A step on a selected negative literal, by what a new level said of its atom. s and e stay two: a `Range` is not `Copy`, and both are wanted
// after `remove`.
fn settle(
    store: &mut [u16],
    held: usize,
    s: usize,
    e: usize,
    inner: Result<Reply, Halt>,
) -> Result<Turn, Halt>
    requires { SomeNegates store.old held s e }
    ensures { SettlesNegative store.old held s e inner store.new result }
{
    let length = usize::from(store[held - 1]);
    let Reply { verdict, account } = inner?;
    match verdict {
        Verdict::Succeeds => Ok(Turn::More(held - length, account)),
        Verdict::Fails => {
            remove(store, held, s, e);
            Ok(Turn::More(held - (e - s), account))
        }
        Verdict::Unsettled => Ok(Turn::Park(Mark::Undecided, account)),
    }
}

// Decides the atom of the selected negative literal by a level of its own, in the part of the store past the words held.
#[cycle(decide_level_negate_take_step)]
pub fn decide(
    clauses: &Clauses<'_>,
    below: usize,
    store: &mut [u16],
    held: usize,
    call: Call,
    account: Account,
    work: &mut Workspace<'_>,
) -> Result<Reply, Halt>
    requires decision { SomeDecision clauses.now.deck.words.now work.old.cells.now call.s call.e }
    requires deeper { 0 < below }
    requires room { held + (call.e - call.s) + 2 ≤ length store.old }
    ensures replied { DecidesAtom clauses.now.deck.words.now work.old.cells.now call.s call.e (below - 1) (length store.old - held) account result }
    ensures store_unchanged { take held store.new ≡ take held store.old }
{
    let n = ask(store, held, &work.cells[call.s..call.e]);
    level(clauses, below - 1, &mut store[held..], n, account, work)
}

// Runs a deeper level until it has succeeded, is finished or is stopped.
#[cycle(decide_level_negate_take_step)]
pub fn level(
    clauses: &Clauses<'_>,
    below: usize,
    store: &mut [u16],
    start: usize,
    account: Account,
    work: &mut Workspace<'_>,
) -> Result<Reply, Halt>
    requires { SomeHolding clauses.now.deck.words.now store.old start }
    ensures { (d : Deck) (gs : List Goal) → open_deck clauses.now.deck.words.now ≡ accepted d → Holding d.symbols store.old start gs → Replied d below (length store.old) gs account result }
{
    let mut held = start;
    let mut account = account;
    let mut parked = false;
    // No range to go over: each step says how many words are held next.
    while 0 < held {
        if account.left() == 0 {
            let stop = Stop::Budget;
            return Err(Halt { stop, account });
        }
        let turn = take_step(clauses, below, store, held, account, work)?;
        match turn {
            Turn::Empty => {
                let verdict = Verdict::Succeeds;
                let account = account.pay_one();
                return Ok(Reply { verdict, account });
            }
            Turn::Park(_, after) => {
                held -= usize::from(store[held - 1]);
                account = after;
                parked = true;
            }
            Turn::More(h, after) => {
                held = h;
                account = after;
            }
        }
    }
    let verdict = finished(parked);
    Ok(Reply { verdict, account })
}

// What a finished level says of its atom.
fn finished(parked: bool) -> Verdict
    ensures { verdict_for result ≡ finished_by parked }
{
    if parked {
        Verdict::Unsettled
    } else {
        Verdict::Fails
    }
}
