// Unification, which document 01 calls matching: equations between terms, from left to right. The
// recursion goes down and along arguments, so its depth is at most twice the number of cells. Each
// equation takes 1 from what is left, and where nothing is left the unification is broken off. The terms and the table stay two
// parameters: lent as `&mut`, a struct of both would have to promise in each contract that the terms and the table's reference stay.
ghost use Rattle.std.specs.Prelude.{◌≡◌, ◌≤◌, length};
ghost use Rattle.rules.specs.Terms.{count};
ghost use Rattle.matching.specs.Cells.{from};
ghost use Rattle.matching.specs.Bindings.{State, Paired, Free, Final, Ready, NoBindings};
ghost use Rattle.matching.specs.Outcomes.{UnifiesVariable, UnifiesPair, UnifiesPairs, UnifiesTerms};

use super::bindings::{Bound, Table};
use super::cells::{FlatTerms, VARIABLE};
use super::occurs::occurs;

// How a unification ended, with what is left after its equations, the failing one included. Or it was broken off, since it takes more
// equations than were left. With `Result<u32, Failure>`, whose error holds a number too, `vast 15` took 1.1 ms where the old enum took
// 0.95; on another machine 1.04 and this 0.91.
#[derive(Clone, Copy, Debug, PartialEq, Eq)]
pub enum Outcome {
    Unified(u32),
    Failed(u32),
    Broken,
}

// The equation between the free variable v and the term at p, which is not that variable. `rest` is left after it. The place
// fits, so `try_from` would give an error that cannot come.
fn eliminate(terms: &FlatTerms, table: &mut Table, rest: u32, v: u16, p: usize) -> Outcome
    requires state { State terms.now.symbols.now terms.now.cells.now table.old.bind table.old.trail table.old.stamps table.old.bound table.old.bound }
    requires free { Free table.old.bind v }
    requires final_place { Final terms.now.cells.now table.old.bind p }
    ensures { UnifiesVariable terms.now.symbols.now terms.now.cells.now table.old.bind table.old.trail table.old.bound v p rest table.new.bind table.new.trail table.new.stamps table.new.bound result }
{
    let found = occurs(terms, table, v, p);
    if found {
        return Outcome::Failed(rest);
    }
    table.bind[usize::from(v)] = Some(p as u16);
    table.trail[table.bound] = v;
    table.bound += 1;
    Outcome::Unified(rest)
}

// The equation between the terms at a and b, at neither of which stands a variable that was replaced.
#[cycle(pair_pairs)]
fn pair(terms: &FlatTerms, table: &mut Table, left: u32, a: usize, b: usize) -> Outcome
    requires { Paired terms.now.symbols.now terms.now.cells.now table.old.bind table.old.trail table.old.stamps table.old.bound a b }
    ensures { UnifiesPair terms.now.symbols.now terms.now.cells.now table.old.bind table.old.trail table.old.bound a b left table.new.bind table.new.trail table.new.stamps table.new.bound result }
{
    let Some(rest) = left.checked_sub(1) else {
        return Outcome::Broken;
    };
    let c = terms.cells[a];
    let d = terms.cells[b];
    if VARIABLE <= c {
        if c == d {
            return Outcome::Unified(rest);
        }
        return eliminate(terms, table, rest, c - VARIABLE, b);
    }
    if VARIABLE <= d {
        return eliminate(terms, table, rest, d - VARIABLE, a);
    }
    if c != d {
        return Outcome::Failed(rest);
    }
    let arity = terms.arity(a);
    pairs(terms, table, rest, a + 1, b + 1, arity)
}

// The equations between the `number` terms at p and those at q, in order. A recursion over the terms that are left, and no `for`: each place
// is found from the term before it.
#[cycle(pair_pairs)]
fn pairs(
    terms: &FlatTerms,
    table: &mut Table,
    left: u32,
    p: usize,
    q: usize,
    number: usize,
) -> Outcome
    requires state { State terms.now.symbols.now terms.now.cells.now table.old.bind table.old.trail table.old.stamps table.old.bound table.old.bound }
    requires left_bound { number ≤ count (from terms.now.symbols.now terms.now.cells.now p) }
    requires right_bound { number ≤ count (from terms.now.symbols.now terms.now.cells.now q) }
    ensures { UnifiesPairs terms.now.symbols.now terms.now.cells.now table.old.bind table.old.trail table.old.bound p q number left table.new.bind table.new.trail table.new.stamps table.new.bound result }
{
    if number == 0 {
        return Outcome::Unified(left);
    }
    let bound = Bound {
        terms: *terms,
        table,
    };
    let a = bound.resolve(p);
    let b = bound.resolve(q);
    let tried = pair(terms, table, left, a, b);
    let Outcome::Unified(rest) = tried else {
        return tried;
    };
    let p_next = terms.after_first(p, number);
    let q_next = terms.after_first(q, number);
    pairs(terms, table, rest, p_next, q_next, number - 1)
}

// Unifies the `number` terms at p with those at q, with at most `left` equations. The bindings stand for
// the substitution after. What this binds and stamps, `undo` takes back.
pub fn unify_terms(
    terms: &FlatTerms,
    table: &mut Table,
    left: u32,
    p: usize,
    q: usize,
    number: usize,
) -> Outcome
    requires ready { Ready terms.now.symbols.now terms.now.cells.now (length table.old.bind) (length table.old.trail) (length table.old.stamps) }
    requires blank { NoBindings table.old.bind table.old.stamps }
    requires left_bound { number ≤ count (from terms.now.symbols.now terms.now.cells.now p) }
    requires right_bound { number ≤ count (from terms.now.symbols.now terms.now.cells.now q) }
    ensures { UnifiesTerms terms.now.symbols.now terms.now.cells.now p q number left table.new.bind table.new.trail table.new.stamps table.new.bound result }
{
    table.bound = 0;
    pairs(terms, table, left, p, q, number)
}
