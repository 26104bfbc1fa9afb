// Uses where the declarations are more than a table holds: up to 4,096 names that are used are in one, and all declarations are looked up.
ghost use Rattle.std.specs.Prelude.{◌≡◌, ◌≤◌, length};
ghost use Rattle.text_rules.specs.TextWords.{misused};
ghost use Rattle.text_rules.specs.Text.{place_of, text_declarations, text_entries};
ghost use Rattle.text.specs.Steps.{option_of};
ghost use Rattle.uses.specs.Batches.{Sees};

use crate::arities::{declared, first_other};
use crate::gathering::gather;
use naming::walks::Declarations;
use std::ops::ControlFlow;
use text::names::Names;
use text::readable::Readable;

// The names from `start` on that one table holds. Break: the first misuse, or none up to the end of the text; Continue: the place after them.
fn in_batch(text: Readable, start: usize) -> ControlFlow<Option<usize>, usize>
    requires { start ≤ length text.text.now }
    ensures { Sees text.entry.text.now start result }
{
    let mut names = Names::new(text.text);
    let next = gather(text, &mut names, start);
    let found = declared(text, &names);
    if let Some(j) = first_other(&found, &names) {
        return ControlFlow::Break(Some(names.get(j).from));
    }
    match next {
        Some(at) => ControlFlow::Continue(at),
        None => ControlFlow::Break(None),
    }
}

// The first name of the clauses that is undeclared or used with another arity.
pub fn misused_in_batches(all: Declarations) -> Option<usize>
    ensures { let text = all.entry.text.text.now in place_of text (misused (text_declarations text) (text_entries text)) ≡ option_of result }
{
    let mut at = all.end;
    // No `for`: a round begins where the one before has come to.
    loop {
        match in_batch(all.text, at) {
            ControlFlow::Break(place) => return place,
            ControlFlow::Continue(next) => at = next,
        }
    }
}
