// Terms, printed from the cells that they stand in.
ghost use Rattle.std.specs.Prelude.{◌≡◌, ◌∷◌, ◌<◌, length};
ghost use Rattle.listing.specs.Standing.{TermFits, TermPrinted, AppliedFits, AppliedPrinted};

use crate::output::Output;

// From here on a cell is a variable, with its number above this (a): a cell is a word of the deck's format. Here once more, since this crate does not stand on matching.
const VARIABLE: u16 = 32768;

// How terms are printed: by the symbols that they are made of, and a byte in front of a variable's number.
// The cells are no field: they move on at each term, and every clause would have to say besides that the symbols stay.
#[derive(Clone, Copy)]
pub struct Printer<'a> {
    pub symbols: &'a [u16],
    pub sign: u8,
}

// Takes the first cell from the front.
pub fn next(cells: &mut &[u16]) -> u16
    requires { 0 < length cells.old.now }
    ensures { cells.old.now ≡ result ∷ cells.new.now }
{
    *cells.split_off_first().unwrap()
}

impl Printer<'_> {
    // Prints the term at the front of the cells, and passes them: a variable as `sign` and its number, a functor as s and its number with its arguments in brackets.
    #[cycle(put_applied_put_term)]
    pub fn put_term(&self, out: &mut Output, cells: &mut &[u16])
        requires { TermFits self.now cells.old.now out.old }
        ensures { TermPrinted self.now cells.old.now out.old out.new cells.new.now }
    {
        let cell = next(cells);
        if VARIABLE <= cell {
            return out.put_prefixed(self.sign, u32::from(cell - VARIABLE));
        }
        let arity = signature::arity(self.symbols, usize::from(cell));
        self.put_applied(out, cells, cell, arity);
    }

    // Prints a symbol as s and its number, and the arguments, as many as its arity, whose cells are at the front, in brackets.
    #[cycle(put_applied_put_term)]
    pub fn put_applied(&self, out: &mut Output, cells: &mut &[u16], symbol: u16, arity: usize)
        requires { AppliedFits self.now cells.old.now symbol arity out.old }
        ensures { AppliedPrinted self.now cells.old.now symbol arity out.old out.new cells.new.now }
    {
        out.put_prefixed(b's', u32::from(symbol));
        if arity == 0 {
            return;
        }
        out.put(b"(");
        self.put_term(out, cells);
        for _i in 1..arity {
            out.put(b",");
            self.put_term(out, cells);
        }
        out.put(b")");
    }
}
