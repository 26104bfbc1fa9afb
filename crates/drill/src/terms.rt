// The terms after one, in order.
ghost use Rattle.std.specs.Prelude.{◌≤◌, ◌≡◌, length};
ghost use Rattle.deck.specs.Kinds.{symbols_of};
ghost use Rattle.drill.specs.Holding.{Holds};

use crate::successor::Functors;
use crate::term::Term;

// The terms of at most n cells after the last one given, or all where none was.
#[derive(Drop)]
pub struct Terms<'a> {
    pub functors: Functors<'a>,
    pub n: usize,
    pub last: Option<Term>,
    pub ghost small: { n ≤ 8 },
    pub ghost holds: { Holds (symbols_of functors.symbols.now) n last },
}

impl Iterator for Terms<'_> {
    ghost use Rattle.std.specs.Iterator.{YieldsFirstBy, item_count};
    ghost use Rattle.drill.specs.Listing.{term_cells, terms_left};

    type Item = Term;

    ghost next_gives = { YieldsFirstBy term_cells terms_left };

    ghost remaining = { item_count terms_left };

    fn next(&mut self) -> Option<Term> {
        let term = self.functors.next(self.n, self.last)?;
        self.last = Some(term);
        Some(term)
    }
}
