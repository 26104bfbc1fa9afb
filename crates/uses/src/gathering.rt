// The names that are used, each once, in a table with the numbers of their arguments.
ghost use Rattle.std.specs.Prelude.{◌≡◌, ◌≤◌, ◌<◌, length};
ghost use Rattle.uses.specs.Batches.{Noted, Gathers};

use crate::walk::{Use, Uses};
use text::names::{Entry, Names, ROOM};
use text::readable::Readable;

// One use more; false for a name that is in the table with other arguments, or for which there is no room.
fn note(names: &mut Names<u16, ROOM>, u: Use) -> bool
    requires { (u.from < u.to) × (u.to ≤ length names.old.text) }
    ensures { Noted names.old u names.new result }
{
    let Use {
        from,
        to,
        arguments: value,
    } = u;
    let text = names.text();
    if let Some(j) = names.find(&text[from..to]) {
        return names.get(j).value == value;
    }
    if names.len() == 4096 {
        return false;
    }
    names.enter(Entry { from, to, value });
    true
}

// The names from `start` on, as far as there is room: the place after them, if more may follow. `same`: a table may be of any text.
pub fn gather(text: Readable, names: &mut Names<u16, ROOM>, start: usize) -> Option<usize>
    requires same { names.old.text ≡ text.text.now }
    requires start { (start ≤ length names.old.text) × (length names.old.entries ≡ 0) }
    ensures text { names.new.text ≡ names.old.text }
    ensures gathered { Gathers names.new start result }
{
    let mut at = start;
    for u in Uses::new(text, start) {
        if !note(names, u) {
            return Some(at);
        }
        at = u.to;
    }
    None
}
