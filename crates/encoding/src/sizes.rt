// How many clauses and cells a text has.
ghost use Rattle.std.specs.Prelude.{◌≡◌, ◌+◌, ◌≤◌, ◌<◌};
ghost use Rattle.text_rules.specs.Text.{text_entries};
ghost use Rattle.encoding.specs.Walk.{heads, Sized};

use crate::walk::{Entries, Entry};
use naming::walks::Declarations;

#[derive(Clone, Copy, Debug, PartialEq, Eq)]
pub struct Sizes {
    pub clauses: usize,
    pub cells: usize,
}

impl Sizes {
    // With one entry more.
    pub fn with(self, given: Entry) -> Sizes
        requires { (self.clauses ≤ self.cells) × (self.cells < usize.MAX) }
        ensures { (result.clauses ≡ self.clauses + heads given.entry) × (result.cells ≡ self.cells + 1) }
    {
        let cells = self.cells + 1;
        match given {
            Entry::Head(_) => Sizes {
                clauses: self.clauses + 1,
                cells,
            },
            _ => Sizes { cells, ..self },
        }
    }
}

// The clauses and cells of a text.
pub fn sizes_of(all: Declarations) -> Sizes
    ensures { Sized (text_entries all.entry.text.text.now) result }
{
    let mut s = Sizes {
        clauses: 0,
        cells: 0,
    };
    for entry in Entries::new(all) {
        s = s.with(entry);
    }
    s
}
