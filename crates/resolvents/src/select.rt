// The selected literal of a goal, in its cells.
ghost use Rattle.std.specs.Prelude.{List};
ghost use Rattle.rules.specs.Syntax.{Symbol, Goal};
ghost use Rattle.rules.specs.Resolution.{select};
ghost use Rattle.resolvents.specs.Variables.{variables_in, NoneOf};
ghost use Rattle.resolvents.specs.Selecting.{GoalCells, SomeGoal, Selects};

use matching::cells::{FlatTerms, NEGATED, VARIABLE};

// Nothing, or the place where a positive or a negative literal stands, and the place after it. The rules' `select` answers one of the same
// three, and the one caller matches them at once, so that no `Option` is passed on.
#[derive(Clone, Copy, Debug, PartialEq, Eq)]
pub enum Selected {
    Nothing,
    Positive(usize, usize),
    Negative(usize, usize),
}

// Whether no variable stands in the cells.
fn ground(cells: &[u16]) -> bool
    ensures { NoneOf (variables_in cells.now) result }
{
    cells.iter().all(|&c| c < VARIABLE)
}

// The leftmost literal that is positive, or negative without variables. The literals begin at place `answer_cells`.
pub fn select_literal(cells: &[u16], symbols: &[u16], answer_cells: usize) -> Selected
    requires { SomeGoal symbols.now cells.now answer_cells }
    ensures { (S : List Symbol) (g : Goal) → GoalCells symbols.now cells.now answer_cells S g → Selects g (select g.literals) result }
{
    let terms = FlatTerms { cells, symbols };
    let mut at = answer_cells;
    // An iterator of literals would be a struct with ghost members of its own, for this one loop.
    while at < cells.len() {
        let end = terms.skip(at);
        if cells[at] < NEGATED {
            return Selected::Positive(at, end);
        }
        if ground(&cells[at..end]) {
            return Selected::Negative(at, end);
        }
        at = end;
    }
    Selected::Nothing
}
