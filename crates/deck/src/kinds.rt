// What a cell stands for.
ghost use Rattle.std.specs.Prelude.{◌≡◌};
ghost use Rattle.std.proofs.Math.ListN.{get_elem?};
ghost use Rattle.rules.specs.Cells.{read_cell, symbol_cell, negated_cell};
ghost use Rattle.deck.specs.Kinds.{symbols_of, kind_of, begins_literal};

// A variable with its number; a functor, a predicate, a negated predicate with its arity; or no cell, a kind as in the rules' cells.
#[derive(Clone, Copy, Debug, PartialEq, Eq)]
pub enum Kind {
    Variable(usize),
    Function(usize),
    Positive(usize),
    Negative(usize),
    Invalid,
}

impl Kind {
    // Whether a literal begins with the cell.
    pub fn begins_literal(self) -> bool
        ensures { result ≡ begins_literal self }
    {
        matches!(self, Kind::Positive(_) | Kind::Negative(_))
    }
}

// The numbers are the format's (document 01), as in the rules' `read_cell`.
pub fn read(symbols: &[u16], cell: u16) -> Kind
    ensures { result ≡ kind_of (read_cell (symbols_of symbols.now) cell) }
{
    match cell {
        0..=16383 => symbol(symbols, usize::from(cell)),
        16384..=32767 => negated(symbols, usize::from(cell - 16384)),
        32768..=33791 => Kind::Variable(usize::from(cell - 32768)),
        _ => Kind::Invalid,
    }
}

fn symbol(symbols: &[u16], n: usize) -> Kind
    ensures { result ≡ kind_of (symbol_cell n (get_elem? (symbols_of symbols.now) n)) }
{
    if signature::count(symbols) <= n {
        return Kind::Invalid;
    }
    let arity = signature::arity(symbols, n);
    if signature::is_predicate(symbols, n) {
        Kind::Positive(arity)
    } else {
        Kind::Function(arity)
    }
}

fn negated(symbols: &[u16], n: usize) -> Kind
    ensures { result ≡ kind_of (negated_cell n (get_elem? (symbols_of symbols.now) n)) }
{
    match symbol(symbols, n) {
        Kind::Positive(arity) => Kind::Negative(arity),
        _ => Kind::Invalid,
    }
}
