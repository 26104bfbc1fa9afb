// Whether m cells can fill k places, a row for each m below 8, and the next functor with which they can.
ghost use Rattle.std.specs.Prelude.{◌+◌, ◌≤◌, ◌<◌, ◌≡◌, List, length};
ghost use Rattle.std.proofs.Math.ListN.{get_elem?};
ghost use Rattle.rules.specs.Syntax.{Symbol};
ghost use Rattle.signature.specs.Symbols.{symbol_count};
ghost use Rattle.deck.specs.Kinds.{symbols_of};
ghost use Rattle.drill.specs.Successors.{starts_with, Known, Sought};

// The row of no cells: they fill no places.
pub fn first_row() -> [bool; 8]
    ensures { (S : List Symbol) → Known S 0 result }
{
    let mut fillable = [false; 8];
    fillable[0] = true;
    fillable
}

// Over a deck's symbols, whether m cells can fill k places, for each k below 8.
#[derive(Drop)]
pub struct Row<'a> {
    pub symbols: &'a [u16],
    pub m: usize,
    pub fillable: &'a [bool; 8],
    pub ghost small: { m < 8 },
    pub ghost known: { Known (symbols_of symbols.now) m fillable.now },
}

impl Row<'_> {
    // The next row: that of one more cell.
    pub fn next(&self) -> [bool; 8]
        requires { self.now.m < 7 }
        ensures { Known (symbols_of self.now.symbols.now) (self.now.m + 1) result }
    {
        let m = self.m + 1;
        let mut fillable = [false; 8];
        for k in 1..=m {
            fillable[k] = self.seek(k - 1, 0).is_some();
        }
        fillable
    }

    // Whether k + 1 places can be filled by m + 1 cells of which symbol f is the first.
    fn starts(&self, k: usize, f: usize) -> bool
        requires { (k ≤ 8) × (f < symbol_count self.now.symbols.now) }
        ensures { result ≡ starts_with (symbols_of self.now.symbols.now) self.now.m k (get_elem? (symbols_of self.now.symbols.now) f) }
    {
        if signature::is_predicate(self.symbols, f) {
            return false;
        }
        let arity = signature::arity(self.symbols, f);
        if self.m < arity + k {
            return false;
        }
        self.fillable[arity + k]
    }

    // The least functor at or above `from` that can be the first of m + 1 cells that fill k + 1 places. It goes through the symbols once.
    pub fn seek(&self, k: usize, from: usize) -> Option<usize>
        requires { (k ≤ 8) × (from ≤ symbol_count self.now.symbols.now) }
        ensures { Sought (symbols_of self.now.symbols.now) self.now.m k from result }
    {
        (from..signature::count(self.symbols)).find(|f| self.starts(k, *f))
    }
}
