// Literals, written from the cells that they stand in. The symbols are passed and no `Printer`, since each clause would have to ask that its sign is `_`.
ghost use Rattle.std.specs.Prelude.{[]};
ghost use Rattle.text_rules.specs.TextWriter.{literals_text, body_text};
ghost use Rattle.writing.specs.Literals.{LiteralFits, LiteralWritten, LiteralsFit, LiteralsWritten};

use listing::output::Output;
use listing::terms::{Printer, next};

// Added to a predicate's number where the literal is negated (a): a cell is a word of the deck's format. Here once more, since this crate does not stand on matching.
pub const NEGATED: u16 = 16384;

// Writes ` :- ` and the literals whose cells the row holds, where there are any.
pub fn put_body(out: &mut Output, row: &[u16], symbols: &[u16])
    requires { LiteralsFit symbols.now row.now (λ ls. body_text ls []) out.old }
    ensures { LiteralsWritten symbols.now row.now (λ ls. body_text ls []) out.old out.new }
{
    if row.is_empty() {
        return;
    }
    let mut cells = row;
    out.put(b" :- ");
    put_literal(out, &mut cells, symbols);
    put_others(out, cells, symbols);
}

// Writes the literals whose cells the row holds, each after a comma and a space.
// The cells move on by a literal's size, so the loop is no `for`; why it is not one function with listing's `put_spaced` is told there.
fn put_others(out: &mut Output, row: &[u16], symbols: &[u16])
    requires { LiteralsFit symbols.now row.now (λ ls. literals_text ls []) out.old }
    ensures { LiteralsWritten symbols.now row.now (λ ls. literals_text ls []) out.old out.new }
{
    let mut cells = row;
    while !cells.is_empty() {
        out.put(b", ");
        put_literal(out, &mut cells, symbols);
    }
}

// Writes the literal at the front of the cells, and passes them.
pub fn put_literal(out: &mut Output, cells: &mut &[u16], symbols: &[u16])
    requires { LiteralFits symbols.now cells.old.now out.old }
    ensures { LiteralWritten symbols.now cells.old.now out.old out.new cells.new.now }
{
    let cell = next(cells);
    let terms = Printer {
        symbols,
        sign: b'_',
    };
    if NEGATED <= cell {
        out.put(b"~");
        let predicate = cell - NEGATED;
        let arity = signature::arity(symbols, usize::from(predicate));
        return terms.put_applied(out, cells, predicate, arity);
    }
    let arity = signature::arity(symbols, usize::from(cell));
    terms.put_applied(out, cells, cell, arity);
}
