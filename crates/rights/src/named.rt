// The predicates that cells name.
ghost use Rattle.std.specs.Prelude.{◌≡◌};
ghost use Rattle.rules.specs.Cells.{read_cell};
ghost use Rattle.deck.specs.Kinds.{symbols_of};
ghost use Rattle.rights.specs.Named.{named_by};

use deck::kinds;
use deck::kinds::Kind;

// Cells from this one on are negated predicates.
const NEGATED: u16 = 16384;

// The predicate of a cell that begins a literal, negated or not.
pub fn named(symbols: &[u16], cell: u16) -> Option<u16>
    ensures { result ≡ named_by (read_cell (symbols_of symbols.now) cell) }
{
    match kinds::read(symbols, cell) {
        Kind::Positive(_) => Some(cell),
        Kind::Negative(_) => Some(cell - NEGATED),
        _ => None,
    }
}
