// Answers, one to a line, printed from the answer list. The symbols are passed and no `Printer`, since each clause would have to ask that its sign is `v`.
ghost use Rattle.std.specs.Prelude.{[], ◌∷◌};
ghost use Rattle.rules.specs.Listing.{print_spaced, print_answer};
ghost use Rattle.listing.specs.Shown.{RowFits, RowPrinted, AnswersFit, AnswersPrinted};

use crate::output::Output;
use crate::terms::Printer;

// Prints `number` answers from the start of the answer list.
// Where their words end shows only when each has been passed, so the number stands beside the list.
pub fn put_answers(out: &mut Output, answers: &[u16], number: u64, symbols: &[u16])
    requires { AnswersFit symbols.now answers.now number out.old }
    ensures { AnswersPrinted symbols.now answers.now number out.old out.new }
{
    let mut list = answers;
    for _i in 0..number {
        let (answer, others) = list.split_at(usize::from(list[0]));
        put_answer(out, &answer[2..], symbols);
        list = others;
    }
}

// Prints one answer's line: the terms whose cells the row holds, with a space between, or `true` where there are none.
fn put_answer(out: &mut Output, row: &[u16], symbols: &[u16])
    requires { RowFits symbols.now row.now (λ ts. print_answer ts (10 ∷ [])) out.old }
    ensures { RowPrinted symbols.now row.now (λ ts. print_answer ts (10 ∷ [])) out.old out.new }
{
    if row.is_empty() {
        return out.put(b"true\n");
    }
    let mut cells = row;
    let terms = Printer {
        symbols,
        sign: b'v',
    };
    terms.put_term(out, &mut cells);
    put_spaced(out, cells, symbols);
    out.put(b"\n");
}

// Prints the terms whose cells the row holds, with a space in front of each.
// The cells move on by a term's size, so no `for`. One function for this and writing's `put_others` (d) proves only with the clauses of `put_term` and `put_literal` at its closures.
fn put_spaced(out: &mut Output, row: &[u16], symbols: &[u16])
    requires { RowFits symbols.now row.now (λ ts. print_spaced ts []) out.old }
    ensures { RowPrinted symbols.now row.now (λ ts. print_spaced ts []) out.old out.new }
{
    let mut cells = row;
    let terms = Printer {
        symbols,
        sign: b'v',
    };
    while !cells.is_empty() {
        out.put(b" ");
        terms.put_term(out, &mut cells);
    }
}
