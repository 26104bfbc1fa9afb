// The clauses that a literal tries, one after another.
ghost use Rattle.std.specs.Prelude.{◌≡◌, ◌≤◌, length, IfSome};
ghost use Rattle.std.proofs.Props.{props};
ghost use Rattle.rules.specs.Syntax.{Deck};
ghost use Rattle.rules.specs.Refusals.{accepted};
ghost use Rattle.rules.specs.Decks.{open_deck};
ghost use Rattle.rules.specs.Resolution.{clauses_about};
ghost use Rattle.clauses.specs.Groups.{Numbers};
ghost use Rattle.clauses.specs.Rows.{RowsOf};

use crate::Clauses;
use crate::rows::Row;

// The numbers of the clauses about the predicate p from place `next` on, all or those of a row.
#[derive(Drop)]
pub struct Tried<'a> {
    pub clauses: Clauses<'a>,
    pub p: usize,
    pub numbers: &'a [u16],
    pub row: Option<Row<'a>>,
    pub next: usize,
    ghost next_in: { next ≤ length numbers.now },
    ghost numbers_about: { (d : Deck) → open_deck clauses.deck.words.now ≡ accepted d → Numbers p d.clauses numbers.now } by { Prim.hlevel props },
    ghost rows_about: { (d : Deck) → open_deck clauses.deck.words.now ≡ accepted d → IfSome row (λ r. RowsOf (clauses_about p d.clauses) r.words.now) } by { Prim.hlevel props },
}

impl Iterator for Tried<'_> {
    ghost use Rattle.clauses.specs.Tried.{GivesTried, most_left};

    type Item = usize;

    ghost next_gives = { GivesTried };

    ghost remaining = { most_left };

    fn next(&mut self) -> Option<usize> {
        let k = match self.row {
            Some(row) => row.next_one(self.next, self.numbers.len()),
            None => self.next,
        };
        let i = *self.numbers.get(k)?;
        self.next = k + 1;
        Some(usize::from(i))
    }
}

impl Tried<'_> {
    ghost use Rattle.clauses.specs.Tried.{Candidates};

    // The number of clauses that are tried by a row: that of its ones. None where all are tried.
    pub fn candidates(&self) -> Option<usize>
        requires { self.now.next ≡ 0 }
        ensures { Candidates self.now result }
    {
        let row = self.row?;
        Some(row.ones())
    }
}
