// The answers at the start of an answer list, one after another.
ghost use Rattle.std.specs.Prelude.{◌≡◌, List, length};
ghost use Rattle.rules.specs.Syntax.{Goal};
ghost use Rattle.rules.specs.Stored.{every};
ghost use Rattle.rules.specs.Column.{bare};
ghost use Rattle.column.specs.Entries.{GoalsAt, SomeGoals, SomeAnswers, ColumnSummed};

use crate::entries;
use deck::opened::Opened;

// Whether none of so many goals has a literal: the cells of its answer terms are all of its cells.
pub fn bare(list: &[u16], count: u64) -> bool
    requires { SomeGoals list.now count }
    ensures { (gs : List Goal) → GoalsAt list.now gs → length gs ≡ count → result ≡ every (λ g. bare g.literals) gs }
{
    let mut rest = list;
    for _i in 0..count {
        let words = usize::from(rest[0]);
        if words != usize::from(rest[1]) + 2 {
            return false;
        }
        rest = &rest[words..];
    }
    true
}

// The sum of a column of so many answers, where each entry is a number.
pub fn sum(deck: &Opened, list: &[u16], count: u16, place: u64) -> Option<i64>
    requires { SomeAnswers deck.now.words.now list.now count place }
    ensures { ColumnSummed deck.now.words.now list.now count place result }
{
    let mut sum = 0;
    let mut rest = list;
    for _i in 0..count {
        let (answer, others) = rest.split_at(usize::from(rest[0]));
        sum += means::value(entries::entry(deck, &answer[2..], place)?);
        rest = others;
    }
    Some(sum)
}
