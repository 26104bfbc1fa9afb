// Refusal 5: each clause is a head and literals, whose variables are numbered in order of first appearance.
ghost use Rattle.std.specs.Prelude.{◌≡◌};
ghost use Rattle.rules.specs.Decks.{clause_rows, read_all, read_clause};
ghost use Rattle.deck.specs.Answers.{found};
ghost use Rattle.deck.specs.Kinds.{symbols_of};

use crate::kinds::Kind;
use crate::rows::Rows;
use crate::{kinds, terms};

pub fn fit(symbols: &[u16], rows: &Rows) -> bool
    ensures { result ≡ found (read_all (read_clause (symbols_of symbols.now)) (clause_rows rows.now.cells.now rows.now.starts.now)) }
{
    (0..rows.starts.len()).all(|i| clause(symbols, rows.row(i)))
}

// A positive literal, the head, and then literals. Called for one clause too, so LLVM would leave it out of the loop.
#[inline(always)]
pub fn clause(symbols: &[u16], cells: &[u16]) -> bool
    ensures { result ≡ found (read_clause (symbols_of symbols.now) cells.now) }
{
    let [head, ..] = cells else {
        return false;
    };
    match kinds::read(symbols, *head) {
        Kind::Positive(_) => terms::literals(symbols, cells),
        _ => false,
    }
}
