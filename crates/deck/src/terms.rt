// A walk over cells: so many terms, and then literals with their terms, their variables numbered in order of first appearance.
ghost use Rattle.std.specs.Prelude.{◌+◌, ◌-◌, ◌<◌, ◌≤◌, ◌≡◌, length};
ghost use Rattle.rules.specs.Cells.{read_literals};
ghost use Rattle.deck.specs.Answers.{found};
ghost use Rattle.deck.specs.Kinds.{symbols_of};
ghost use Rattle.deck.specs.Scan.{scan, Stepped};
ghost use Rattle.deck.specs.declared.kinds.Kind.TheVariants.{Positive};

use crate::kinds;
use crate::kinds::Kind;

// The cell at place `at` of `len`, where `todo` terms are to come and `next` variables have appeared: the two numbers after it, or none
// where no such cell may stand.
fn step(kind: Kind, len: usize, at: usize, todo: usize, next: usize) -> Option<(usize, usize)>
    requires { (at < len) × (todo ≤ len - at) × (next ≤ at) }
    ensures { Stepped (len - at - 1) kind todo next result }
{
    let room = len - at - 1;
    match kind {
        Kind::Variable(v) => {
            let rest = todo.checked_sub(1)?;
            if next < v {
                return None;
            }
            Some((rest, next.max(v + 1)))
        }
        Kind::Function(k) => {
            let rest = todo.checked_sub(1)?;
            if room - rest < k {
                return None;
            }
            Some((k + rest, next))
        }
        Kind::Positive(k) | Kind::Negative(k) => predicate(k, room, todo, next),
        Kind::Invalid => None,
    }
}

// A predicate's cell, negated or not: a literal starts where no term is to come.
fn predicate(arity: usize, room: usize, todo: usize, next: usize) -> Option<(usize, usize)>
    ensures { Stepped room (Positive arity) todo next result }
{
    if 0 < todo {
        return None;
    }
    if room < arity {
        return None;
    }
    Some((arity, next))
}

// So many terms and then literals. Symbols and cells stay two: the cells are another row at each call, and nothing is known of the pair.
pub fn row(symbols: &[u16], cells: &[u16], terms: usize) -> bool
    ensures { result ≡ scan (symbols_of symbols.now) cells.now terms 0 }
{
    if cells.len() < terms {
        return false;
    }
    let mut todo = terms;
    let mut next = 0;
    for (at, cell) in cells.iter().enumerate() {
        let kind = kinds::read(symbols, *cell);
        let Some((t, n)) = step(kind, cells.len(), at, todo, next) else {
            return false;
        };
        todo = t;
        next = n;
    }
    true
}

// Literals alone.
pub fn literals(symbols: &[u16], cells: &[u16]) -> bool
    ensures { result ≡ found (read_literals (symbols_of symbols.now) cells.now) }
{
    row(symbols, cells, 0)
}
