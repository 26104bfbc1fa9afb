// Terms as cells in prefix notation.
ghost use Rattle.std.specs.Prelude.{◌≡◌, ◌%◌, ◌≤◌, ◌<◌, length, get_or};
ghost use Rattle.rules.specs.Terms.{count};
ghost use Rattle.signature.specs.Symbols.{symbol_count};
ghost use Rattle.matching.specs.Taking.{drop_t};
ghost use Rattle.matching.specs.Cells.{args_of, from, Formed, Skipped, RestAt};

// The deck's format: cells below NEGATED are symbols, those from there on negated predicates, and those from VARIABLE on variables.
pub const NEGATED: u16 = 16384;

pub const VARIABLE: u16 = 32768;

// Cells that are terms, one after another, over the deck's symbol words. That so many terms stand at a place is a clause of five functions: a
// type for it would hold the terms, the place and the number, and be made at each step.
#[derive(Clone, Copy)]
pub struct FlatTerms<'a> {
    pub cells: &'a [u16],
    pub symbols: &'a [u16],
    ghost formed: { Formed symbols.now cells.now },
}

impl FlatTerms<'_> {
    // How many arguments the cell at p has.
    pub fn arity(&self, p: usize) -> usize
        requires { p < length self.now.cells.now }
        ensures { result ≡ args_of self.now.symbols.now (get_or self.now.cells.now p 0) }
    {
        arity_of(self.symbols, usize::from(self.cells[p]))
    }

    // The place after the `number` terms at p. A recursion over the terms that are left, and no `for`: each place is found from the term
    // before it.
    fn skip_terms(&self, p: usize, number: usize) -> usize
        requires { (p ≤ length self.now.cells.now) × (number ≤ count (from self.now.symbols.now self.now.cells.now p)) }
        ensures { Skipped self.now.symbols.now self.now.cells.now p number result }
    {
        if number == 0 {
            return p;
        }
        let arity = self.arity(p);
        let next = self.skip_terms(p + 1, arity);
        self.skip_terms(next, number - 1)
    }

    // The place after the term at p.
    pub fn skip(&self, p: usize) -> usize
        requires { p < length self.now.cells.now }
        ensures { (result ≤ length self.now.cells.now) × (from self.now.symbols.now self.now.cells.now result ≡ drop_t 1 (from self.now.symbols.now self.now.cells.now p)) }
    {
        self.skip_terms(p, 1)
    }

    // The place after the first of the `number` terms at p. Where no other follows, nothing is walked.
    pub fn after_first(&self, p: usize, number: usize) -> usize
        requires { number ≤ count (from self.now.symbols.now self.now.cells.now p) }
        ensures { RestAt self.now.symbols.now self.now.cells.now p number result }
    {
        if 1 < number { self.skip(p) } else { p }
    }
}

// The number of arguments that follow a cell, by the deck's symbol words.
pub fn arity_of(symbols: &[u16], c: usize) -> usize
    requires { c < 32768 → c % 16384 < symbol_count symbols.now }
    ensures { result ≡ args_of symbols.now c }
{
    if c < usize::from(VARIABLE) {
        signature::arity(symbols, c % usize::from(NEGATED))
    } else {
        0
    }
}
