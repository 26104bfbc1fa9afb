// Whether a deck of those sizes fits. A bool, and not the sum: where there is no deck to write (many.rt), it has no use.
ghost use Rattle.std.specs.Prelude.{◌≡◌, ◌&&◌, leb};
ghost use Rattle.encoding.specs.Encoding.{total};

use encoding::sizes::Sizes;
use naming::walks::Declarations;

pub fn fits(all: Declarations, s: Sizes, room: usize) -> bool
    ensures { let words = total all.entry.text.text.now s in result ≡ (leb words room && leb words 16384) }
{
    let total = 8usize
        .saturating_add(all.count)
        .saturating_add(all.second_words())
        .saturating_add(s.clauses)
        .saturating_add(s.cells);
    total <= room && total <= 16384
}
