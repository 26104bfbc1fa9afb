// The uses of names one after another, looked up in the table of declarations.
ghost use Rattle.std.specs.Prelude.{◌≡◌};
ghost use Rattle.text_rules.specs.TextWords.{misused};
ghost use Rattle.text_rules.specs.Text.{place_of, text_declarations, text_entries};
ghost use Rattle.text.specs.Steps.{option_of};

use crate::lookup::takes;
use crate::walk::Uses;
use naming::table::DeclaredNames;

// The first name of the clauses that is undeclared or used with another arity.
pub fn misused_in_table(names: DeclaredNames) -> Option<usize>
    ensures { let text = names.entry.all.text.text.now in place_of text (misused (text_declarations text) (text_entries text)) ≡ option_of result }
{
    let text = names.all.text.text;
    // No `find`: its closure would slice at places of which only the walk's clause says that they are in the text.
    for u in Uses::new(names.all.text, names.all.end) {
        let fine = takes(names, &text[u.from..u.to], u.arguments);
        if !fine {
            return Some(u.from);
        }
    }
    None
}
