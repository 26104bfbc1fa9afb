// The clauses, one a line.
ghost use Rattle.text_rules.specs.TextWriter.{clauses_text};
ghost use Rattle.listing.specs.Put.{Fits, Adds};
ghost use Rattle.writing.specs.Literals.{ClauseFits, ClauseWritten};
ghost use Rattle.writing.specs.Writes.{deck_of};

use crate::literals::{put_body, put_literal};
use deck::opened::Opened;
use listing::output::Output;

pub fn put_clauses(out: &mut Output, deck: &Opened)
    requires { Fits out.old (clauses_text (deck_of deck.now.words.now).clauses) }
    ensures { Adds out.old (clauses_text (deck_of deck.now.words.now).clauses) out.new }
{
    let symbols = deck.symbols();
    let count = deck.clause_count();
    for i in 0..count {
        put_clause(out, deck.clause(i), symbols);
    }
}

// Writes the clause whose cells the row holds: the head, the body where there is one, and the line's end.
fn put_clause(out: &mut Output, row: &[u16], symbols: &[u16])
    requires { ClauseFits symbols.now row.now out.old }
    ensures { ClauseWritten symbols.now row.now out.old out.new }
{
    let mut cells = row;
    put_literal(out, &mut cells, symbols);
    put_body(out, cells, symbols);
    out.put(b".\n");
}
