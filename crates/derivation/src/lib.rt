// The step on a selected positive literal: the derived goals take the goal's place in the store. Clauses and workspace stay two parameters: of
// both behind one `&mut` each contract would have to say that the clauses are the same after.
#![tactic(auto)]

ghost use Rattle.std.specs.Prelude.{◌≡◌, ℕ, ◌≤◌, ◌<◌, true, false, List, length, take};
ghost use Rattle.std.proofs.Math.Option.{none};
ghost use Rattle.rules.specs.Decks.{clause_words};
ghost use Rattle.resolvents.specs.Deriving.{IsAttempt};
ghost use Rattle.derivation.specs.Derives.{SomeTries, AboutCall, OverRow, AttemptsClause, Fitting, Placed, WritesChildren, SomeDeriving, DerivesCall};

use clauses::Clauses;
use clauses::tried::Tried;
use goals::restore;
use report::Stop;
use resolvents::fresh::variables;
use resolvents::resolve::{Call, Resolved, begins_otherwise, resolve_clause};
use resolvents::workspace::Workspace;

// After a step, the words that goals hold, or none where a derived goal is oversized; and what is left of the budget.
#[derive(Clone, Copy, Debug, PartialEq, Eq)]
pub struct Derived {
    pub held: Option<usize>,
    pub left: u32,
}

// A call, and what is worked out of it once for all clauses: the least number above its goal's variables, and the symbol that the literal's
// first argument begins with.
#[derive(Clone, Copy)]
struct Attempt {
    call: Call,
    offset: usize,
    first: Option<u16>,
}

// The goals that the call gives take the place of the goal at the end of the words held, if the step's cost is left of the budget and
// there is room for all of them. `Deriving` takes the call's numbers: levels' proofs state it of two
// places, before there is a call.
pub fn derive(
    clauses: &Clauses<'_>,
    store: &mut [u16],
    held: usize,
    call: Call,
    left: u32,
    work: &mut Workspace,
) -> Result<Derived, Stop>
    requires some_deriving { SomeDeriving clauses.now.deck.words.now store.old work.old.cells.now held call.len call.answer_cells call.s call.e }
    requires left { 0 < left }
    ensures derives { DerivesCall clauses.now.deck.words.now store.old work.old.cells.now held call.len call.answer_cells call.s call.e left store.new result }
{
    let base = held - 2 - call.len;
    let cells = work.goal(call.len);
    let offset = variables(cells);
    let first = call.first_symbol(clauses.symbols(), cells);
    let attempt = Attempt {
        call,
        offset,
        first,
    };
    // Restored in each way out that keeps the goal: a closure for it would hold the store, which is read and written between.
    let Some(derived) = put_children(clauses, store, base, attempt, left - 1, work) else {
        restore(store, held, work.goal(call.len), call.answer_cells);
        return Err(Stop::Budget);
    };
    let Some(end) = derived.held else {
        restore(store, held, work.goal(call.len), call.answer_cells);
        return Ok(derived);
    };
    if store.len() < end {
        restore(store, held, work.goal(call.len), call.answer_cells);
        return Err(Stop::Store);
    }
    store[base..end].reverse();
    Ok(derived)
}

// Writes the derived goals in deck order from base on, as far as there is room: where they end, or would end. Every clause that the index
// gives is tried, also where a goal is oversized, unless the equations are more than what is left.
fn put_children(
    clauses: &Clauses<'_>,
    store: &mut [u16],
    base: usize,
    attempt: Attempt,
    left: u32,
    work: &mut Workspace,
) -> Option<Derived>
    requires some_tries { SomeTries clauses.now.deck.words.now work.old.cells.now attempt }
    requires base { base ≤ length store.old }
    ensures writes { WritesChildren clauses.now.deck.words.now work.old.cells.now attempt store.old base left store.new result }
    ensures cells_unchanged { take attempt.call.len work.new.cells.now ≡ take attempt.call.len work.old.cells.now }
{
    let p = usize::from(work.cells[attempt.call.s]);
    let candidates = clauses.tried(p, attempt.first);
    if are_over(&candidates, left) {
        return None;
    }
    let mut held = Some(base);
    let mut rest = left;
    for i in candidates {
        let (given, l) = try_clause(clauses, i, attempt, rest, work)?;
        held = put_child(store, &work.draft.child, given, held);
        rest = l;
    }
    Some(Derived { held, left: rest })
}

// Whether a row has more clauses than equations are left. Each of its clauses takes one at least, so that none needs to be tried.
fn are_over(candidates: &Tried<'_>, left: u32) -> bool
    requires { candidates.now.next ≡ 0 }
    ensures over { result ≡ true → OverRow candidates.now left }
    ensures within { result ≡ false → OverRow candidates.now left → ⊥ }
{
    match candidates.candidates() {
        Some(n) => (left as usize) < n,
        None => false,
    }
}

// Puts what a clause gives behind the goals so far, if there is room for it: the place after it, or none once a goal is oversized.
#[tactic(auto, using(words::proofs::Sets::put_sets))]
fn put_child(
    store: &mut [u16],
    child: &[u16; 1024],
    given: Resolved,
    end: Option<usize>,
) -> Option<usize>
    requires { Fitting given end }
    ensures { Placed store.old end child.now given store.new result }
{
    match given {
        Resolved::Nothing => end,
        Resolved::Child(w) => {
            let end = end?;
            let to = end + w;
            if store.len() < to {
                return Some(to);
            }
            words::copy(&child[..w], &mut store[end..to]);
            Some(to)
        }
        Resolved::Oversized => None,
    }
}

// Clause i, which is about the call's predicate.
fn try_clause(
    clauses: &Clauses<'_>,
    i: usize,
    attempt: Attempt,
    left: u32,
    work: &mut Workspace,
) -> Option<(Resolved, u32)>
    requires some_tries { SomeTries clauses.now.deck.words.now work.old.cells.now attempt }
    requires about_call { AboutCall clauses.now.deck.words.now work.old.cells.now attempt i }
    requires i_in_bounds { i < length (clause_words clauses.now.deck.words.now) }
    ensures attempt { AttemptsClause clauses.now.deck.words.now work.old.cells.now attempt i left work.new.draft.child result }
    ensures cells_unchanged { take attempt.call.len work.new.cells.now ≡ take attempt.call.len work.old.cells.now }
{
    let clause = clauses.cells(i);
    if begins_otherwise(attempt.first, clause) {
        return fails_at_once(left);
    }
    let Attempt { call, offset, .. } = attempt;
    resolve_clause(clauses.symbols(), work, call, offset, clause, left)
}

// A unification that fails at its first equation.
fn fails_at_once(left: u32) -> Option<(Resolved, u32)>
    ensures { (child : List ℕ) → IsAttempt none 1 left child result }
{
    let rest = left.checked_sub(1)?;
    Some((Resolved::Nothing, rest))
}
