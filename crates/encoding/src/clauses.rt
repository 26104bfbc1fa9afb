// The clauses in one walk: where they start, and their cells.
ghost use Rattle.std.specs.Prelude.{◌≡◌, map, ◌≤◌, ◌<◌, length};
ghost use Rattle.std.proofs.lemmas.List.Edits.{sets};
ghost use Rattle.text_rules.specs.TextWords.{starts_from, entry_cell};
ghost use Rattle.text_rules.specs.Text.{text_declarations, text_entries};
ghost use Rattle.encoding.specs.Walk.{heads, start_put};

use crate::cells::cell_of;
use crate::sizes::Sizes;
use crate::walk::{Entries, Entry};
use naming::table::DeclaredNames;

// The start of a clause at place i, if the entry begins one. The cast is proved to fit; `try_from` would have an error that cannot come.
fn put_start(starts: &mut [u16], i: usize, start: usize, given: Entry)
    requires { (heads given ≡ 1 → i < length starts.old) × (start < 65536) }
    ensures { starts.new ≡ start_put starts.old i start given.entry }
{
    if let Entry::Head(_) = given {
        starts[i] = start as u16;
    }
}

pub fn put_clauses(names: DeclaredNames, starts: &mut [u16], cells: &mut [u16])
    requires starts { length (starts_from 0 (text_entries names.all.text.text.now)) ≤ length starts.old }
    requires cells { length (text_entries names.all.text.text.now) ≤ length cells.old }
    requires few { length (text_entries names.all.text.text.now) < 65536 }
    ensures starts { starts.new ≡ sets starts.old 0 (starts_from 0 (text_entries names.entry.all.text.text.now)) }
    ensures cells { cells.new ≡ sets cells.old 0 (map (entry_cell (text_declarations names.entry.all.text.text.now)) (text_entries names.entry.all.text.text.now)) }
{
    // By places: a clause's start is the number of the cells before it, so both are counted in any case.
    let mut s = Sizes {
        clauses: 0,
        cells: 0,
    };
    for entry in Entries::new(names.all) {
        put_start(starts, s.clauses, s.cells, entry);
        cells[s.cells] = cell_of(names, entry);
        s = s.with(entry);
    }
}
