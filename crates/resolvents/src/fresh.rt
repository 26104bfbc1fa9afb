// A clause's variables made fresh.
ghost use Rattle.std.specs.Prelude.{◌≡◌, ℕ, ◌+◌, ◌≤◌, ◌<◌, List, map, length, get_or};
ghost use Rattle.std.proofs.lemmas.List.Edits.{sets};
ghost use Rattle.rules.specs.Syntax.{Symbol, Goal, top_goal};
ghost use Rattle.resolvents.specs.Variables.{fresh_cell};
ghost use Rattle.resolvents.specs.Selecting.{GoalCells};

use matching::cells::VARIABLE;

// The least number above every variable of a goal.
pub fn variables(cells: &[u16]) -> usize
    ensures { (ar : List ℕ) (answer_cells : ℕ) (S : List Symbol) (g : Goal) → GoalCells ar cells.now answer_cells S g → result ≡ top_goal g }
{
    let mut top = 0;
    for &cell in cells {
        if VARIABLE <= cell {
            top = top.max(usize::from(cell - VARIABLE) + 1);
        }
    }
    top
}

// Copies the cells of a clause to place `to`, its variables after the offset of the goal.
pub fn copy_fresh(clause: &[u16], cells: &mut [u16], to: usize, offset: u16)
    requires clause_in_bounds { to + length clause.now ≤ length cells.old }
    requires by_index { (i : ℕ) → i < length clause.now → get_or clause.now i 0 + offset < 65536 }
    ensures { cells.new ≡ sets cells.old to (map (fresh_cell offset) clause.now) }
{
    // By index: with `zip` over `iter_mut` the loop's invariant names the cells lent so far (`yielded`), and not `cells`.
    for (i, &c) in clause.iter().enumerate() {
        cells[to + i] = if c < VARIABLE { c } else { c + offset };
    }
}
