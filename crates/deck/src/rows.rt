// Where clauses stand: their starts and the cells of all of them.
ghost use Rattle.std.specs.Prelude.{◌+◌, ◌<◌, ◌≡◌, true, length, get_or};
ghost use Rattle.rules.specs.Decks.{starts_fit};
ghost use Rattle.deck.specs.Rows.{row_at};

// Where clause i ends: at the next start, or after the last cell.
pub fn end(starts: &[u16], cells: &[u16], i: usize) -> usize
    requires { i < length starts.now }
    ensures { result ≡ get_or starts.now (i + 1) (length cells.now) }
{
    starts
        .get(i + 1)
        .map_or(cells.len(), |end| usize::from(*end))
}

// A row of cells for each start. The starts are in order and within the cells.
#[derive(Clone, Copy)]
pub struct Rows<'a> {
    pub starts: &'a [u16],
    pub cells: &'a [u16],
    ghost in_order: { starts_fit (length cells.now) starts.now ≡ true },
}

impl<'a> Rows<'a> {
    // The cells of clause i.
    #[tactic(auto, using(crate::proofs::RowLaws::start_end))]
    pub fn row(&self, i: usize) -> &'a [u16]
        requires { i < length self.now.starts.now }
        ensures { result.now ≡ row_at self.now.cells.now self.now.starts.now i }
    {
        let from = usize::from(self.starts[i]);
        let to = end(self.starts, self.cells, i);
        &self.cells[from..to]
    }
}
