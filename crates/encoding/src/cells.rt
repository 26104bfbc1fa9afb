// The cells of the clauses.
ghost use Rattle.std.specs.Prelude.{◌≡◌, ◌≤◌, length};
ghost use Rattle.text_rules.specs.TextWords.{Use, Entry as Rule, entry_cell, symbol_number};
ghost use Rattle.text_rules.specs.Text.{text_declarations};
ghost use Rattle.encoding.specs.Walk.{IsEntry};

use crate::walk::Entry;
use naming::table::DeclaredNames;

// The deck's format (a): a negated predicate's cell is over its symbol's number, a variable's over its own. Matching has these two as well, but this crate does not stand on it.
const NEGATED: u16 = 16384;

const VARIABLE: u16 = 32768;

// The number of a name's symbol: 0 for a name that is not declared, as in the rules. The cast is proved to fit; `try_from` would have an error that cannot come.
fn symbol(names: DeclaredNames, name: &[u8]) -> u16
    ensures number { (u : Use) → u.name ≡ name.now → result ≡ symbol_number (text_declarations names.entry.all.text.text.now) u }
    ensures few { result ≤ 4095 }
{
    names.names.find(name).unwrap_or(0) as u16
}

pub fn cell_of(names: DeclaredNames, given: Entry) -> u16
    requires { (e : Rule) × IsEntry given e }
    ensures { (e : Rule) → IsEntry given.entry e → result ≡ entry_cell (text_declarations names.entry.all.text.text.now) e }
{
    match given {
        Entry::Variable(v) => VARIABLE + v,
        Entry::Negated(name) => NEGATED + symbol(names, name),
        Entry::Head(name) | Entry::Symbol(name) => symbol(names, name),
    }
}
