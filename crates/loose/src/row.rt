// Whether each variable of a row stands in a positive literal of it, in one walk over the row's cells.
ghost use Rattle.std.specs.Prelude.{◌+◌, ◌<◌, ◌≡◌};
ghost use Rattle.deck.specs.Kinds.{symbols_of};
ghost use Rattle.loose.specs.Marks.{row_tight, inside_after, mark_after, waiting, Below};

use deck::kinds;
use deck::kinds::Kind;

// Whether variables after a cell stand in a positive literal.
fn inside_after(kind: Kind, inside: bool) -> bool
    ensures { result ≡ inside_after kind inside }
{
    match kind {
        Kind::Positive(_) => true,
        Kind::Negative(_) => false,
        _ => inside,
    }
}

// A variable's mark after one more place where it stands.
fn mark_after(stamp: u16, inside: bool, mark: u16) -> u16
    requires { stamp < 65535 }
    ensures { result ≡ mark_after stamp inside mark }
{
    if inside { stamp + 1 } else { stamp.max(mark) }
}

// Whether a variable waits for a positive literal, as a number.
#[tactic(auto, unfolding(crate::specs::Marks::waiting))]
fn waits(stamp: u16, mark: u16) -> usize
    ensures { result ≡ waiting stamp mark }
{
    usize::from(mark == stamp)
}

// The marks of earlier rows are below `stamp`, and those of this one below `stamp + 2`: marks and no enum, as nothing is set back between rows.
// Marks and stamp stay two: a struct's next stamp would still want a clause, since only the number of clauses says that there is one.
pub fn tight(symbols: &[u16], cells: &[u16], marks: &mut [u16], stamp: u16) -> bool
    requires { Below stamp marks.old × (stamp < 65535) }
    ensures { (result ≡ row_tight (symbols_of symbols.now) cells.now) × Below (stamp + 2) marks.new }
{
    let mut inside = false;
    let mut count = 0;
    for cell in cells {
        match kinds::read(symbols, *cell) {
            Kind::Variable(v) => {
                let old = marks[v];
                let new = mark_after(stamp, inside, old);
                marks[v] = new;
                count = count + waits(stamp, new) - waits(stamp, old);
            }
            kind => inside = inside_after(kind, inside),
        }
    }
    count == 0
}
