// The literals of a clause's body, by their predicates.
ghost use Rattle.std.specs.Prelude.{◌≤◌, length};
ghost use Rattle.rules.specs.Cells.{read_cell};
ghost use Rattle.deck.specs.Kinds.{symbols_of};
ghost use Rattle.ranks.specs.Literals.{Begins};

use deck::kinds::{self, Kind};

// Cells from this one on are negated predicates.
const NEGATED: u16 = 16384;

// A literal without its terms: its predicate, and how often it is negated.
#[derive(Clone, Copy)]
pub struct Bare {
    pub predicate: u16,
    pub nots: u16,
}

// The literal that begins in a cell.
pub fn literal(symbols: &[u16], cell: u16) -> Option<Bare>
    requires { length symbols.now ≤ 4096 }
    ensures { Begins (read_cell (symbols_of symbols.now) cell) result }
{
    match kinds::read(symbols, cell) {
        Kind::Positive(_) => Some(Bare {
            predicate: cell,
            nots: 0,
        }),
        Kind::Negative(_) => Some(Bare {
            predicate: cell - NEGATED,
            nots: 1,
        }),
        _ => None,
    }
}
