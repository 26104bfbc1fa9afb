// What takes a cell in the clauses of a text, one after another.
ghost use Rattle.std.specs.Prelude.{◌≤◌, length};

use naming::walks::Declarations;
use text::tokens::{Kind, Token, next_token};

// A variable; or a name that begins a clause, that stands after `~`, or that stands elsewhere.
#[derive(Clone, Copy, Debug, PartialEq, Eq)]
pub enum Entry<'a> {
    Variable(u16),
    Head(&'a [u8]),
    Negated(&'a [u8]),
    Symbol(&'a [u8]),
}

// Where the next token stands: at the beginning of a clause, after `~`, or elsewhere.
#[derive(Clone, Copy, Debug, PartialEq, Eq)]
pub enum Place {
    Beginning,
    Negation,
    Inside,
}

impl Place {
    ghost use Rattle.std.specs.Prelude.{◌≡◌, List};
    ghost use Rattle.text_rules.specs.TextTokens.{Token as Read};
    ghost use Rattle.text_rules.specs.TextWords.{Use, entries, entry_after};
    ghost use Rattle.text.specs.Kinds.{kind_of};
    ghost use Rattle.encoding.specs.Walk.{kind_before, IsEntry};

    // The place after a token of that kind.
    fn after(kind: Kind) -> Place
        ensures { (ts : List Read) → entries (kind_before result) ts ≡ entries (kind_of kind) ts }
    {
        match kind {
            Kind::Dot => Place::Beginning,
            Kind::Tilde => Place::Negation,
            _ => Place::Inside,
        }
    }

    // The entry that a name at this place is.
    #[tactic(auto, unfolding(text_rules::specs::TextWords::entry_after))]
    fn entry(self, name: &[u8]) -> Entry<'_>
        ensures { (u : Use) → u.name ≡ name.now → IsEntry result (entry_after (kind_before self) u) }
    {
        match self {
            Place::Beginning => Entry::Head(name),
            Place::Negation => Entry::Negated(name),
            Place::Inside => Entry::Symbol(name),
        }
    }
}

// The entries from `at` on.
#[derive(Drop)]
pub struct Entries<'a> {
    pub text: &'a [u8],
    pub at: usize,
    pub place: Place,
    ghost inside: { at ≤ length text.now },
}

impl<'a> Entries<'a> {
    ghost use Rattle.std.specs.Prelude.{◌≡◌, drop};
    ghost use Rattle.text_rules.specs.TextTokens.{tokens};
    ghost use Rattle.text_rules.specs.TextWords.{entries};
    ghost use Rattle.text.specs.Kinds.{kind_of};
    ghost use Rattle.text.specs.declared.tokens.Kind.TheVariants.{Ending};
    ghost use Rattle.text.specs.Scan.{NextToken};
    ghost use Rattle.encoding.specs.Walk.{entries_left, Gives};
    ghost use Rattle.text_rules.specs.Text.{text_entries};

    // Those of the clauses, which begin after the declarations.
    pub fn new(all: Declarations<'a>) -> Entries<'a>
        ensures text { result.text.now ≡ all.entry.text.text.now }
        ensures all { entries_left result ≡ text_entries all.entry.text.text.now }
    {
        Entries {
            text: all.text.text,
            at: all.end,
            place: Place::Beginning,
        }
    }

    // The entry that the next token is.
    fn entry(&self, t: Token) -> Option<Entry<'a>>
        requires next { NextToken self.now.text.now self.now.at t }
        requires more { t.kind ≡ Ending → ⊥ }
        ensures { Gives result (entries_left self.now) (entries (kind_of t.kind) (tokens 0 (drop t.to self.now.text.now))) }
    {
        let name = &self.text[t.from..t.to];
        match t.kind {
            Kind::Variable(v) => Some(Entry::Variable(v)),
            Kind::Name => Some(self.place.entry(name)),
            _ => None,
        }
    }
}

impl<'a> Iterator for Entries<'a> {
    ghost use Rattle.encoding.specs.Walk.{GivesEntry, places_left};

    type Item = Entry<'a>;

    ghost next_gives = { GivesEntry };

    ghost remaining = { places_left };

    fn next(&mut self) -> Option<Entry<'a>> {
        // No `for` over `Tokens` (b): it proves, but with it here and in uses a text of 2,000 clauses is read in 890 us, with the loops in 857; the bar is 879.
        loop {
            let t = next_token(self.text, self.at);
            if let Kind::Ending = t.kind {
                return None;
            }
            let entry = self.entry(t);
            self.at = t.to;
            self.place = Place::after(t.kind);
            if let Some(entry) = entry {
                return Some(entry);
            }
        }
    }
}
