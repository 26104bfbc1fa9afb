// What a run works in.
ghost use Rattle.std.specs.Prelude.{◌≡◌, ◌≤◌, length, take};
ghost use Rattle.resolvents.specs.Deriving.{Rows};

use crate::put::Draft;
use matching::bindings::Table;

// The cells of a goal and then of a clause, lent by the caller; the table of the matching, and the draft of the derived goal. Between two
// clauses no variable is bound or has a number.
#[derive(Drop)]
pub struct Workspace<'a> {
    pub cells: &'a mut [u16],
    pub table: Table,
    pub draft: Draft,
    ghost rows: { Rows table draft },
    ghost room: { 8192 ≤ length cells.now },
}

impl<'a> Workspace<'a> {
    pub fn new(cells: &'a mut [u16]) -> Workspace<'a>
        requires { 8192 ≤ length cells.old }
        ensures { result.cells.now ≡ cells.old }
    {
        Workspace {
            cells,
            table: Table::new(),
            draft: Draft::new(),
        }
    }

    // The first cells, those of a goal.
    pub fn goal(&self, len: usize) -> &[u16]
        requires { len ≤ length self.now.cells.now }
        ensures { result.now ≡ take len self.now.cells.now }
    {
        &self.cells[..len]
    }
}
