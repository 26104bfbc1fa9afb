// Walks over the declarations of a readable text.
ghost use Rattle.std.specs.Prelude.{◌≡◌, ◌+◌, ◌≤◌, ◌<◌, length};
ghost use Rattle.std.proofs.Props.{props};
ghost use Rattle.text_rules.specs.Text.{text_declarations};
ghost use Rattle.naming.specs.Walks.{Passed, AllCounted};

use crate::declarations::{Declaration, item_at};
use text::readable::Readable;

// So many declarations are passed, up to a place.
#[derive(Clone, Copy)]
pub struct Walk<'a> {
    pub text: Readable<'a>,
    pub count: usize,
    pub at: usize,
    ghost passed: { Passed text.text.now at count } by { Prim.hlevel props },
}

impl<'a> Walk<'a> {
    // At the first declaration.
    pub fn new(text: Readable<'a>) -> Walk<'a>
        ensures { (result.text ≡ text.entry) × (result.count ≡ 0) × (result.at ≡ text.entry.start.at) }
    {
        Walk {
            text,
            count: 0,
            at: text.start.at,
        }
    }
}

impl Iterator for Walk<'_> {
    ghost use Rattle.naming.specs.Steps.{GivesDeclaration, bytes_left};

    type Item = Declaration;

    ghost next_gives = { GivesDeclaration };

    ghost remaining = { bytes_left };

    fn next(&mut self) -> Option<Declaration> {
        let d = item_at(self.text.text, self.at)?;
        self.at = d.end;
        self.count += 1;
        Some(d)
    }
}

// The number of all declarations, and the place after the last one.
#[derive(Clone, Copy)]
pub struct Declarations<'a> {
    pub text: Readable<'a>,
    pub count: usize,
    pub end: usize,
    ghost counted: { AllCounted text.text.now count end } by { Prim.hlevel props },
}

impl Declarations<'_> {
    ghost use Rattle.rules.specs.Decks.{format_number, symbol_room};
    ghost use Rattle.text_rules.specs.Text.{text_format};

    // The number of the deck's format.
    #[tactic(auto, unfolding(text_rules::specs::Text::text_format, text_rules::specs::TextWords::format_from))]
    pub fn format(&self) -> u16
        ensures { result ≡ format_number (text_format self.now.text.text.now) }
    {
        if self.text.start.numbers { 2 } else { 1 }
    }

    // The second words of the symbols, which format 2 has.
    #[tactic(auto, unfolding(text_rules::specs::Text::text_format, text_rules::specs::TextWords::format_from, rules::specs::Decks::symbol_room))]
    pub fn second_words(&self) -> usize
        ensures { self.now.count + result ≡ symbol_room (format_number (text_format self.now.text.text.now)) (length (text_declarations self.now.text.text.now)) }
    {
        if self.text.start.numbers {
            self.count
        } else {
            0
        }
    }
}

// Counted beside the walk, which has the same two numbers: the `for` uses it up.
pub fn count<'a>(text: Readable<'a>) -> Declarations<'a>
    ensures { result.text ≡ text.entry }
{
    let mut count = 0;
    let mut end = text.start.at;
    for d in Walk::new(text) {
        count += 1;
        end = d.end;
    }
    Declarations { text, count, end }
}

// After the next 4,096 declarations, or after the last one.
pub fn skip<'a>(passed: Walk<'a>) -> Walk<'a>
    ensures text { result.text ≡ passed.entry.text }
    ensures few { result.count ≤ passed.entry.count + 4096 }
    ensures more { passed.entry.count < length (text_declarations passed.entry.text.text.now) → passed.entry.count < result.count }
{
    let mut walk = passed;
    walk.nth(4095);
    walk
}
