// Refusal 1: the eight header words and the deck's length.
ghost use Rattle.std.specs.Prelude.{◌≡◌, ◌≤◌};
ghost use Rattle.rules.specs.Decks.{header_fits, symbol_room};

// Format, number of symbols S, symbol offset, number of clauses C, clause offset, number of term cells T, term offset, total words:
// the offsets and the total follow from the format, in which a symbol takes one word or two, and the three numbers; the total is the length, at most 16,384.
// Tests one after another: as one expression with `&&` its proof is a case for each of them.
#[tactic(auto, using(crate::proofs::HeaderLaws::header_or_not))]
pub fn fit(deck: &[u16]) -> bool
    ensures { result ≡ header_fits deck.now }
{
    let [
        format @ 1..=2,
        symbols @ 1..=4096,
        8,
        clauses,
        starts,
        terms,
        cells,
        total,
        ..
    ] = deck
    else {
        return false;
    };
    let first_start = 8 + room(usize::from(*format), usize::from(*symbols));
    let first_cell = first_start + usize::from(*clauses);
    let end = first_cell + usize::from(*terms);
    if usize::from(*starts) != first_start {
        return false;
    }
    if usize::from(*cells) != first_cell {
        return false;
    }
    if usize::from(*total) != end {
        return false;
    }
    if deck.len() != end {
        return false;
    }
    if 16384 < end {
        return false;
    }
    true
}

// How many words so many symbols take.
fn room(format: usize, symbols: usize) -> usize
    requires { symbols ≤ 4096 }
    ensures words { result ≡ symbol_room format symbols }
    ensures small { result ≤ 8192 }
{
    if format == 2 { 2 * symbols } else { symbols }
}
