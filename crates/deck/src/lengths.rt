// Refusal 4: the clauses' lengths.
ghost use Rattle.std.specs.Prelude.{◌≡◌};
ghost use Rattle.rules.specs.Decks.{clause_rows, rows_short};

use crate::rows::Rows;

// At most 256 cells each.
pub fn fit(rows: &Rows) -> bool
    ensures { result ≡ rows_short (clause_rows rows.now.cells.now rows.now.starts.now) }
{
    (0..rows.starts.len()).all(|i| rows.row(i).len() <= 256)
}
