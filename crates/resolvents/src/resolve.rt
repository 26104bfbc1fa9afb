// The derived goal of a goal's selected literal and a clause. Numbers of at most 1,024 are made words by `as`: they are proved to fit, and
// `u16::try_from` would have an `Err` that never comes.
ghost use Rattle.std.specs.Prelude.{◌≡◌, ◌+◌, ◌≤◌, ◌<◌, true, false, length, take, get_or, IfSome};
ghost use Rattle.resolvents.specs.Naming.{all_by};
ghost use Rattle.resolvents.specs.Deriving.{Rows, SomeGoalCall, SomeCall, BeginsWith, FailsFirst, ResolvesClause};
ghost use Rattle.resolvents.specs.Child.{literals_by, Ranges, GoalWritten, IsChild, GoalThenClause, ResolvesCells};

use crate::fresh::copy_fresh;
use crate::put::{Draft, Full};
use crate::workspace::Workspace;
use matching::bindings::{Bound, Table};
use matching::cells::{FlatTerms, VARIABLE, arity_of};
use matching::unify::{Outcome, unify_terms};

// No derived goal; the number of its words; or it is over 1,024 words. `Nothing` is no `None`, since this stands in an `Option` already, and
// `Option<(Option<Result<usize, Full>>, u32)>` leaves a reader to find out which `None` is which. `Child` has a number and no slice of the
// draft's words, which would keep the workspace lent.
#[derive(Clone, Copy, Debug, PartialEq, Eq)]
pub enum Resolved {
    Nothing,
    Child(usize),
    Oversized,
}

// A goal's cells: how many they are, how many of them are its answer terms, and the selected literal from s up to e.
#[derive(Clone, Copy)]
pub struct Call {
    pub len: usize,
    pub answer_cells: usize,
    pub s: usize,
    pub e: usize,
}

impl Call {
    // The symbol that the literal's first argument begins with: none where there is no argument, or a variable.
    pub fn first_symbol(self, symbols: &[u16], cells: &[u16]) -> Option<u16>
        requires { SomeGoalCall symbols.now cells.now self }
        ensures { BeginsWith symbols.now cells.now self result }
    {
        if arity_of(symbols, usize::from(cells[self.s])) == 0 {
            return None;
        }
        let first = cells[self.s + 1];
        if VARIABLE <= first {
            return None;
        }
        Some(first)
    }
}

// Whether a clause's first argument begins with another symbol than `first`. It then fails at its first equation.
pub fn begins_otherwise(first: Option<u16>, clause: &[u16]) -> bool
    requires { IfSome first (λ f. 1 < length clause.now) }
    ensures fails { result ≡ true → FailsFirst first clause.now }
    ensures goes_on { result ≡ false → IfSome first (λ f. get_or clause.now 1 0 < 32768 → get_or clause.now 1 0 ≡ f) }
{
    first.is_some_and(|first| clause[1] < VARIABLE && clause[1] != first)
}

// What a derived goal is written from: the bindings over the cells of a goal and then of a clause, the call, and where the clause's body begins.
#[derive(Clone, Copy)]
struct Origin<'a> {
    bound: Bound<'a>,
    call: Call,
    body: usize,
    ghost ranges: { Ranges bound.terms.cells.now call body },
}

impl Origin<'_> {
    // Writes the cells of the derived goal from place 2 on: its answer terms; the literals before the selected one; those after it; and
    // the clause's body. The result is the place after them, and how many are the answer terms'.
    fn put_goal(&self, draft: &mut Draft) -> Result<(usize, usize), Full>
        ensures { GoalWritten draft.old.child draft.old.order draft.old.named (all_by self.now.bound 0 self.now.call.answer_cells) (literals_by self.now.bound self.now.call self.now.body) draft.new.child draft.new.names draft.new.order draft.new.named result }
    {
        let bound = &self.bound;
        let call = self.call;
        let first = draft.put_range(bound, 0, call.answer_cells, 2)?;
        let before = draft.put_range(bound, call.answer_cells, call.s, first)?;
        let after = draft.put_range(bound, call.e, call.len, before)?;
        let end = draft.put_range(bound, self.body, bound.terms.cells.len(), after)?;
        Ok((end, first - 2))
    }

    // Writes the derived goal: its answer terms, its literals, and the two first words.
    fn write_child(&self, draft: &mut Draft) -> Resolved
        requires none_before { draft.old.named ≡ 0 }
        ensures child { IsChild (all_by self.now.bound 0 self.now.call.answer_cells) (literals_by self.now.bound self.now.call self.now.body) draft.new.child result }
        ensures none_after { draft.new.named ≡ 0 }
    {
        let written = self.put_goal(draft);
        draft.forget();
        match written {
            Ok((end, width)) => {
                draft.child[0] = end as u16;
                draft.child[1] = width as u16;
                Resolved::Child(end)
            }
            Err(Full) => Resolved::Oversized,
        }
    }
}

// The cells are those of the goal and then those of the clause. Cells and symbols stay two: with a `FlatTerms` from the caller it stayed open
// there that the workspace's cells are kept (`returns-clause-cells_unchanged`). Table and draft too: the cells of their workspace are lent meanwhile.
fn resolve_cells(
    cells: &[u16],
    symbols: &[u16],
    call: Call,
    number: usize,
    left: u32,
    table: &mut Table,
    draft: &mut Draft,
) -> Option<(Resolved, u32)>
    requires together { GoalThenClause symbols.now cells.now call number }
    requires rows { Rows table.old draft.old }
    ensures attempted_by { ResolvesCells symbols.now cells.now call number left draft.new.child result }
    ensures rows_after { Rows table.new draft.new }
{
    let terms = FlatTerms { cells, symbols };
    let s = call.s;
    let len = call.len;
    let tried = match unify_terms(&terms, table, left, s + 1, len + 1, number) {
        Outcome::Unified(rest) => {
            let body = terms.skip(len);
            let bound = Bound { terms, table };
            let written = Origin { bound, call, body }.write_child(draft);
            Some((written, rest))
        }
        Outcome::Failed(rest) => Some((Resolved::Nothing, rest)),
        Outcome::Broken => None,
    };
    table.undo();
    tried
}

// The derived goal of the call and a clause, with at most `left` equations, and what is left after those of the unification; or the
// unification takes more and was broken off. The goal's cells stay; the cells behind them are free.
pub fn resolve_clause(
    symbols: &[u16],
    work: &mut Workspace,
    call: Call,
    offset: usize,
    clause: &[u16],
    left: u32,
) -> Option<(Resolved, u32)>
    requires { SomeCall symbols.now work.old.cells.now clause.now call offset }
    ensures attempt { ResolvesClause symbols.now work.old.cells.now call offset clause.now left work.new.draft.child result }
    ensures cells_unchanged { take call.len work.new.cells.now ≡ take call.len work.old.cells.now }
{
    let Call { len, s, .. } = call;
    let number = arity_of(symbols, usize::from(work.cells[s]));
    let cells = &mut *work.cells;
    copy_fresh(clause, cells, len, offset as u16);
    let total = len + clause.len();
    let cells: &[u16] = cells;
    let table = &mut work.table;
    let draft = &mut work.draft;
    resolve_cells(&cells[..total], symbols, call, number, left, table, draft)
}
