// Names in the table of declarations.
ghost use Rattle.std.specs.Prelude.{◌≡◌};
ghost use Rattle.text_rules.specs.Text.{text_declarations};
ghost use Rattle.uses.specs.Uses.{takes};

use naming::table::DeclaredNames;

// Whether the name of those bytes is declared with that many arguments.
// A `match` (c): with `is_some_and` the two cases, each by its own lemma, are one goal, `returns`, which stayed open.
pub fn takes(names: DeclaredNames, bytes: &[u8], arguments: u16) -> bool
    ensures { result ≡ takes (text_declarations names.entry.all.text.text.now) bytes.now arguments }
{
    match names.names.find(bytes) {
        Some(j) => names.names.get(j).value.arity() == arguments,
        None => false,
    }
}
