// The table of a matching: what each variable was replaced by, and taking that back.
ghost use Rattle.std.specs.Prelude.{◌≡◌, ◌<◌, length};
ghost use Rattle.matching.specs.Bindings.{Triangular, Resolved, Trailed, NoBindings};
ghost use Rattle.matching.specs.TermCode.{term_code};
ghost use Rattle.std.proofs.Props.{props};

use super::cells::{FlatTerms, VARIABLE};

// For each of 1,280 variables: the place of the term that it was replaced by, or `None` where it is free; and the stamp of the occurs check.
// The first `bound` entries of the trail are the variables replaced, in order.
#[derive(Drop)]
pub struct Table {
    pub bind: [Option<u16>; 1280],
    // The kit's `ArrayVec` has the same two fields as the trail and `bound`: a crate more, for one push.
    pub trail: [u16; 1280],
    // Of pairs with `bind` the places in `Triangular` and the stamps in `Checking` would each be a `map`.
    pub stamps: [u16; 1280],
    pub bound: usize,
    ghost sized: { (length bind ≡ 1280) × (length trail ≡ 1280) × (length stamps ≡ 1280) },
}

impl Table {
    // No variable is bound.
    pub fn new() -> Self
        ensures blank { NoBindings result.bind result.stamps }
        ensures empty { result.bound ≡ 0 }
    {
        Table {
            bind: [None; 1280],
            trail: [0; 1280],
            stamps: [0; 1280],
            bound: 0,
        }
    }

    // Takes the bindings of the trail back, with their stamps.
    pub fn undo(&mut self)
        requires { Trailed self.old.bind self.old.trail self.old.stamps self.old.bound }
        ensures blank { NoBindings self.new.bind self.new.stamps }
        ensures empty { self.new.bound ≡ 0 }
    {
        for &v in self.trail[..self.bound].iter().rev() {
            self.bind[usize::from(v)] = None;
            self.stamps[usize::from(v)] = 0;
        }
        self.bound = 0;
    }
}

// Terms, and a table of bindings of their variables that is only read.
#[derive(Clone, Copy)]
pub struct Bound<'a> {
    pub terms: FlatTerms<'a>,
    pub table: &'a Table,
    ghost triangular: { Triangular terms.symbols.now terms.cells.now table.now.bind table.now.trail table.now.bound } by { Prim.hlevel (props, term_code) },
}

impl Bound<'_> {
    // The place of the term at p, or of the term that the variable there was replaced by in the end.
    pub fn resolve(&self, p: usize) -> usize
        requires { p < length self.now.terms.cells.now }
        ensures { Resolved self.now.terms.symbols.now self.now.terms.cells.now self.now.table.now.bind self.now.table.now.trail self.now.table.now.bound p result }
    {
        let mut at = p;
        // No `while let` over a method that gives the next place: it would need a contract of its own, and 65,536 equations took 1.08 ms with
        // it and 0.99 in this loop.
        loop {
            let c = self.terms.cells[at];
            if c < VARIABLE {
                return at;
            }
            let Some(place) = self.table.bind[usize::from(c - VARIABLE)] else {
                return at;
            };
            at = usize::from(place);
        }
    }
}
