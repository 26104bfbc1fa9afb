// The predicates that a member's query or open goals reach: a work list.
ghost use Rattle.std.specs.Prelude.{◌≡◌, ◌<◌, ◌≤◌, [], ◌∷◌, List, length};
ghost use Rattle.std.proofs.Props.{props};
ghost use Rattle.rules.specs.Syntax.{Literal, Deck};
ghost use Rattle.rules.specs.Refusals.{accepted};
ghost use Rattle.rules.specs.Decks.{symbol_words, open_deck};
ghost use Rattle.rules.specs.Goals.{Marked, appearing};
ghost use Rattle.rules.specs.Ranks.{rests_on};
ghost use Rattle.rules.specs.Rights.{predicates, literals_of, any_barred};
ghost use Rattle.rights.specs.Named.{named};
ghost use Rattle.deck.specs.Kinds.{symbols_of};
ghost use Rattle.rights.specs.Reached.{Marks, Within, AllReached, AreGoals, SomeGoals};

use crate::bars::barred;
use crate::named::named;
use arrayvec::ArrayVec;
use clauses::Clauses;

// A goal's first word is its number of words plus its mark times this. Written here too: this crate does not stand on `goals`.
const MARK: usize = 4096;

// The predicates that are reached so far, in the order in which they were met, and a mark for each of them.
#[derive(Drop)]
pub struct Reached {
    marks: [bool; 4096],
    pub list: ArrayVec<u16, 4096>,
    ghost marked: { Marks marks list.items } by { Prim.hlevel props },
}

impl Reached {
    // None.
    pub fn new() -> Reached
        ensures { result.list.items ≡ [] }
    {
        Reached {
            marks: [false; 4096],
            list: ArrayVec::new(),
        }
    }

    // And p, if it is not among them.
    fn add(&mut self, p: u16)
        requires { p < 4096 }
        ensures { self.new.list.items ≡ appearing self.old.list.items (p ∷ []) }
    {
        if self.marks[usize::from(p)] {
            return;
        }
        self.marks[usize::from(p)] = true;
        self.list.push(p);
    }

    // And those that cells name.
    pub fn add_named(&mut self, symbols: &[u16], cells: &[u16])
        requires { length symbols.now ≤ 4096 }
        ensures { self.new.list.items ≡ appearing self.old.list.items (named (symbols_of symbols.now) cells.now) }
    {
        for cell in cells {
            if let Some(p) = named(symbols, *cell) {
                self.add(p);
            }
        }
    }

    // And those of the literals of open goals, whose words follow one another.
    pub fn add_goals(&mut self, symbols: &[u16], goals: &[u16])
        requires few { length symbols.now ≤ 4096 }
        requires goals { SomeGoals (symbols_of symbols.now) goals.now }
        ensures { (ms : List Marked) → AreGoals (symbols_of symbols.now) goals.now ms → self.new.list.items ≡ appearing self.old.list.items (predicates (literals_of ms)) }
    {
        let mut at = 0;
        while at < goals.len() {
            let from = at + 2;
            let end = at + usize::from(goals[at]) % MARK;
            self.add_named(symbols, &goals[from..end]);
            at = end;
        }
    }

    // And those that stand in the bodies of the clauses about p.
    fn add_bodies(&mut self, clauses: &Clauses, p: usize)
        requires { p < length (symbol_words clauses.now.deck.words.now) }
        ensures { (d : Deck) → open_deck clauses.now.deck.words.now ≡ accepted d → self.new.list.items ≡ appearing self.old.list.items (predicates (rests_on d.clauses p)) }
    {
        for i in clauses.tried(p, None) {
            self.add_named(clauses.symbols(), &clauses.cells(i)[1..]);
        }
    }

    // And those that these reach: the clauses about each of them are looked at once.
    pub fn spread(&mut self, clauses: &Clauses)
        requires { Within (length (symbol_words clauses.now.deck.words.now)) self.old.list.items }
        ensures { (d : Deck) (starts : List Literal) → open_deck clauses.now.deck.words.now ≡ accepted d → self.old.list.items ≡ appearing [] (predicates starts) → AllReached d.clauses starts self.new.list.items }
    {
        for at in 0..4096 {
            let Some(p) = self.list.get(at).copied() else {
                return;
            };
            self.add_bodies(clauses, usize::from(p));
        }
    }

    // Whether one of them is barred.
    pub fn any_barred(&self, bars: &[u16]) -> bool
        ensures { result ≡ any_barred bars.now self.now.list.items }
    {
        self.list.iter().any(|p| barred(bars, *p))
    }
}
