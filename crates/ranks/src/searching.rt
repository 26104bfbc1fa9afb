// The predicates on a chain through a "not" back to themselves, by a search from each.
ghost use Rattle.std.specs.Prelude.{◌≤◌, ◌<◌, ◌≡◌, length, get_or};
ghost use Rattle.std.proofs.Props.{props};
ghost use Rattle.rules.specs.Syntax.{Deck, Clause};
ghost use Rattle.rules.specs.Refusals.{accepted};
ghost use Rattle.rules.specs.Decks.{symbol_words, clause_words, open_deck};
ghost use Rattle.rules.specs.Ranks.{rests_on};
ghost use Rattle.clauses.specs.Clauses.{ClauseAt};
ghost use Rattle.ranks.specs.Searching.{Ready, NothingReached, Begun, Raised, Follows, Popped, CircleSays, Named};

use crate::literals::literal;
use arrayvec::ArrayVec;
use clauses::Clauses;

// What a predicate p leads to: the mark of a predicate is 1 where a chain leads to it from p, and 2 where one through a "not" does. A predicate waits when
// its mark was raised and its clauses are still to be followed, so that each predicate's clauses are followed at most twice.
#[derive(Drop)]
struct Search {
    marks: [u16; 4096],
    waiting: ArrayVec<u16, 8192>,
    ghost ready: { Ready marks waiting.items } by { Prim.hlevel props },
}

impl Search {
    // Nothing is marked.
    fn blank() -> Search
        ensures { NothingReached result.marks result.waiting.items }
    {
        Search {
            marks: [0; 4096],
            waiting: ArrayVec::new(),
        }
    }

    // The search from p.
    fn from(p: u16) -> Search
        requires { p < 4096 }
        ensures { Begun p result.marks result.waiting.items }
    {
        let mut search = Search::blank();
        search.raise(p, 1);
        search
    }

    // Raises the mark of q, and lets q wait; nothing where the mark is as high already.
    fn raise(&mut self, q: u16, mark: u16)
        requires { (q < 4096) × (mark ≤ 2) }
        ensures { Raised q mark self.old.marks self.old.waiting.items self.new.marks self.new.waiting.items }
    {
        let at = usize::from(q);
        if mark <= self.marks[at] {
            return;
        }
        self.marks[at] = mark;
        self.waiting.push(q);
    }

    // The body of clause i, which is about a predicate with this mark.
    fn visit(&mut self, clauses: &Clauses, i: usize, mark: u16)
        requires { (mark ≤ 2) × (i < length (clause_words clauses.now.deck.words.now)) }
        ensures { (d : Deck) (c : Clause) → open_deck clauses.now.deck.words.now ≡ accepted d → ClauseAt d.clauses i c → Follows c.body mark self.old.marks self.old.waiting.items self.new.marks self.new.waiting.items }
    {
        let symbols = clauses.symbols();
        let body = &clauses.cells(i)[1..];
        for cell in body {
            if let Some(l) = literal(symbols, *cell) {
                self.raise(l.predicate, (l.nots + mark).min(2));
            }
        }
    }

    // The bodies of the clauses about q.
    fn follow(&mut self, clauses: &Clauses, q: u16)
        requires { q < length (symbol_words clauses.now.deck.words.now) }
        ensures { (d : Deck) → open_deck clauses.now.deck.words.now ≡ accepted d → Follows (rests_on d.clauses q) (get_or self.old.marks q 0) self.old.marks self.old.waiting.items self.new.marks self.new.waiting.items }
    {
        let p = usize::from(q);
        let mark = self.marks[p];
        for i in clauses.tried(p, None) {
            self.visit(clauses, i, mark);
        }
    }

    // The next predicate whose clauses are to be followed.
    fn next(&mut self) -> Option<u16>
        ensures { Popped self.old.marks self.old.waiting.items result self.new.marks self.new.waiting.items }
    {
        self.waiting.pop()
    }
}

// Whether p is on such a chain.
fn is_circular(clauses: &Clauses, p: u16) -> bool
    requires { p < length (symbol_words clauses.now.deck.words.now) }
    ensures { (d : Deck) → open_deck clauses.now.deck.words.now ≡ accepted d → CircleSays d.clauses p result }
{
    let mut search = Search::from(p);
    while let Some(q) = search.next() {
        search.follow(clauses, q);
    }
    search.marks[usize::from(p)] == 2
}

// The lowest-numbered one that is.
pub fn first_circular(clauses: &Clauses) -> Option<u16>
    ensures { (d : Deck) → open_deck clauses.now.deck.words.now ≡ accepted d → Named d.clauses result }
{
    for s in 0..clauses.symbols().len() {
        let p = s as u16;
        if is_circular(clauses, p) {
            return Some(p);
        }
    }
    None
}
