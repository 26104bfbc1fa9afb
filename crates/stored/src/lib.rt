// Whether a store begins with open goals from which a run can carry on (document 02, U4, refusal 12), and how many words they take.
#![tactic(auto)]

ghost use Rattle.std.specs.Prelude.{◌+◌, ◌≤◌, ◌≡◌, true, ◌&&◌, length, eqb};
ghost use Rattle.rules.specs.Syntax.{Deck};
ghost use Rattle.rules.specs.Refusals.{accepted};
ghost use Rattle.rules.specs.Decks.{open_deck};
ghost use Rattle.deck.specs.Kinds.{symbols_of};
ghost use Rattle.deck.specs.Scan.{scan};
ghost use Rattle.stored.specs.Passing.{lead, fits_as, mark_fits, GoalFound, GoalsFound, OpenFound};

use deck::opened::Opened;
use deck::{kinds, terms};

// The number of cells in front of the first literal.
#[tactic(auto, unfolding(crate::specs::Passing::lead))]
fn front(symbols: &[u16], cells: &[u16]) -> usize
    ensures { result ≡ lead (symbols_of symbols.now) cells.now }
{
    cells
        .iter()
        .take_while(|cell| !kinds::read(symbols, **cell).begins_literal())
        .count()
}

// The cells of a goal of so many answer terms, which take `answer_cells` cells.
fn cells_fit(symbols: &[u16], cells: &[u16], answer_cells: usize, terms: u64) -> bool
    ensures { result ≡ (scan (symbols_of symbols.now) cells.now terms 0
        && eqb (lead (symbols_of symbols.now) cells.now) answer_cells) }
{
    let Ok(terms) = usize::try_from(terms) else {
        return false;
    };
    terms::row(symbols, cells, terms) && front(symbols, cells) == answer_cells
}

// Whether a mark is a pending goal's, 0, or a parked goal's, 1 to 4: the numbers of `goals::Mark` in the store.
fn mark_fits(mark: usize, parked: bool) -> bool
    ensures { result ≡ mark_fits parked mark }
{
    match parked {
        true => matches!(mark, 1..=4),
        false => mark == 0,
    }
}

// A goal's first word is its number of words plus its mark times this. Written here too: this crate does not stand on `goals`.
const MARK: usize = 4096;

// A store of pending or of parked goals, each of so many answer terms, and the symbols by which they are read. A closure in place of
// `parked` would have to say in both contracts which of the two tests it is.
#[derive(Clone, Copy)]
struct Store<'a> {
    symbols: &'a [u16],
    words: &'a [u16],
    terms: u64,
    parked: bool,
}

impl Store<'_> {
    // The place after the goal at place `at`.
    fn goal(&self, at: usize) -> Option<usize>
        requires { at ≤ length self.now.words.now }
        ensures { GoalFound (symbols_of self.now.symbols.now) (fits_as self.now.parked self.now.terms) self.now.words.now at result }
    {
        let words = self.words;
        if words.len() - at < 2 {
            return None;
        }
        let first = usize::from(words[at]);
        let answer_cells = usize::from(words[at + 1]);
        let n = first % MARK;
        if !mark_fits(first / MARK, self.parked) {
            return None;
        }
        if n < 2 {
            return None;
        }
        if 1024 < n {
            return None;
        }
        if words.len() - at < n {
            return None;
        }
        let from = at + 2;
        let end = at + n;
        if !cells_fit(self.symbols, &words[from..end], answer_cells, self.terms) {
            return None;
        }
        Some(end)
    }

    // The place after `count` goals from place `at` on.
    fn goals(&self, at: usize, count: u64) -> Option<usize>
        requires { at ≤ length self.now.words.now }
        ensures { GoalsFound (symbols_of self.now.symbols.now) (fits_as self.now.parked self.now.terms) self.now.words.now at count result }
    {
        let mut place = at;
        for _ in 0..count {
            place = self.goal(place)?;
        }
        Some(place)
    }
}

// What a store is said to begin with: so many pending goals and then so many parked ones, each of so many answer terms.
#[derive(Clone, Copy)]
pub struct OpenCounts {
    pub pending: u64,
    pub parked: u64,
    pub terms: u64,
}

// The open goals, pending ones first: the place after those, and the place after the parked ones; a pair, which each caller takes apart at once.
pub fn open_goals(symbols: &[u16], store: &[u16], counts: OpenCounts) -> Option<(usize, usize)>
    ensures { OpenFound (symbols_of symbols.now) store.now counts.pending counts.parked counts.terms result }
{
    let pending = Store {
        symbols,
        words: store,
        terms: counts.terms,
        parked: false,
    };
    let parked = Store {
        parked: true,
        ..pending
    };
    let middle = pending.goals(0, counts.pending)?;
    let end = parked.goals(middle, counts.parked)?;
    Some((middle, end))
}

// The same over an opened deck.
pub fn deck_goals(deck: &Opened, store: &[u16], counts: OpenCounts) -> Option<(usize, usize)>
    ensures { (d : Deck) → open_deck deck.now.words.now ≡ accepted d → OpenFound d.symbols store.now counts.pending counts.parked counts.terms result }
{
    open_goals(deck.symbols(), store, counts)
}
