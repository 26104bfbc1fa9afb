// Terms, one to a line, printed from the cells that stand one after another.
ghost use Rattle.drill_program.specs.Lines.{LinesFit, LinesPrinted};

use listing::output::Output;
use listing::terms::Printer;

// Prints `number` terms from the start of the cells.
// Where their cells end shows only when each has been passed, so the number stands beside the cells.
pub fn put_lines(out: &mut Output, cells: &[u16], number: usize, symbols: &[u16])
    requires { LinesFit symbols.now cells.now number out.old }
    ensures { LinesPrinted symbols.now cells.now number out.old out.new }
{
    let mut rest = cells;
    let terms = Printer {
        symbols,
        sign: b'v',
    };
    for _i in 0..number {
        terms.put_term(out, &mut rest);
        out.put(b"\n");
    }
}
