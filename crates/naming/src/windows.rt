// Names declared twice where there are more declarations than the table holds: 4,096 of them at a time are in it, and the later ones are looked up.
ghost use Rattle.std.specs.Prelude.{◌≡◌, ◌+◌, ◌≤◌, length};
ghost use Rattle.text_rules.specs.TextWords.{declared_twice};
ghost use Rattle.text_rules.specs.Text.{text_declarations, place_of};
ghost use Rattle.text.specs.Steps.{option_of};
ghost use Rattle.naming.specs.Windows.{Known, Kept};

use crate::walks::{Walk, count, skip};
use text::names::{Entry, Names, ROOM};
use text::readable::Readable;

// A declaration with the name of an earlier one: its number, and the name's place; or the number of all declarations. In both cases no earlier one has a name of the windows passed (`Known`), which is all that the next window needs.
#[derive(Clone, Copy, Debug, PartialEq, Eq)]
pub struct First {
    pub number: usize,
    pub place: Option<usize>,
}

// Enters a name, unless the table is full.
fn keep(names: &mut Names<(), ROOM>, entry: Entry<()>)
    requires forward { entry.from ≤ entry.to }
    requires inside { entry.to ≤ length names.old.text }
    ensures { Kept names.old entry names.new }
{
    if names.len() < ROOM {
        names.enter(entry);
    }
}

// The first declaration, before the one that is known, with the name of one of the next 4,096 after those passed.
fn window(passed: Walk, known: First) -> First
    requires before { passed.count ≤ known.number }
    requires known { Known passed.text.text.now passed.count known }
    ensures { Known passed.entry.text.text.now (passed.entry.count + 4096) result }
{
    let text = passed.text.text;
    let mut names = Names::new(text);
    for (number, d) in (passed.count..known.number).zip(passed) {
        if names.find(&text[d.from..d.to]).is_some() {
            return First {
                number,
                place: Some(d.from),
            };
        }
        keep(
            &mut names,
            Entry {
                from: d.from,
                to: d.to,
                value: (),
            },
        );
    }
    known
}

// The first name that is declared for the second time.
pub fn declared_twice(text: Readable) -> Option<usize>
    ensures { place_of text.entry.text.now (declared_twice (text_declarations text.entry.text.now) 0 (text_declarations text.entry.text.now)) ≡ option_of result }
{
    let mut known = First {
        number: count(text).count,
        place: None,
    };
    let mut passed = Walk::new(text);
    // Each pass may bring the end nearer, so this is no `for`.
    while passed.count < known.number {
        known = window(passed, known);
        passed = skip(passed);
    }
    known.place
}
