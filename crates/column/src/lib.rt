// The sum and the mean of a column of an answer list (document 02, U10).
#![tactic(auto)]

ghost use Rattle.rules.specs.Column.{column};
ghost use Rattle.column.specs.Results.{Answers, ListFits};

use deck::Refusal;
use deck::opened::Opened;
use means::Mean;
use stored::OpenCounts;

mod answers;
mod entries;

// Whether the list begins with so many answers of so many terms: the reader of open goals, with none parked, and then no literals.
fn list_fits(deck: &Opened, list: &[u16], count: u64, terms: u64) -> bool
    ensures { ListFits deck.now.words.now list.now count terms result }
{
    let counts = OpenCounts {
        pending: count,
        parked: 0,
        terms,
    };
    if stored::deck_goals(deck, list, counts).is_none() {
        return false;
    }
    answers::bare(list, count)
}

// THE PUBLIC CALL. Refusals 1 to 5 of the deck, then 17 of the list, the count and the column, and 18 of the column's entries. Nothing is written.
pub fn column(
    deck: &[u16],
    list: &[u16],
    count: u64,
    terms: u64,
    place: u64,
) -> Result<Mean, Refusal>
    ensures { Answers (column deck.now list.now count terms place) result }
{
    let mut table = [0; 4096];
    let opened = Opened::new(deck, &mut table)?;
    let Ok(number) = u16::try_from(count) else {
        return Err(Refusal::Answers);
    };
    if number == 0 {
        return Err(Refusal::Answers);
    }
    if terms <= place {
        return Err(Refusal::Answers);
    }
    if !list_fits(&opened, list, count, terms) {
        return Err(Refusal::Answers);
    }
    let sum = answers::sum(&opened, list, number, place).ok_or(Refusal::NotNumber)?;
    Ok(Mean::new(sum, number))
}
