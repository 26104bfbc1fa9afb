// Opening a deck and checking a query (document 01, "The deck" and "Who can make the engine refuse"), and the deck's parts as the engine reads them.
#![tactic(auto)]

ghost use Rattle.std.specs.Prelude.{◌≡◌, IfOk};
ghost use Rattle.rules.specs.Syntax.{Deck};
ghost use Rattle.rules.specs.Refusals.{accepted, checked_number, refusal_number};
ghost use Rattle.rules.specs.Decks.{open_deck, read_query};
ghost use Rattle.deck.specs.Answers.{answer_number, number_of, refusal_for, check_words};

use opened::Opened;

pub mod clauses;
mod header;
pub mod kinds;
mod lengths;
pub mod opened;
mod pairs;
pub mod parts;
pub mod rows;
mod starts;
mod symbols;
pub mod terms;

// The refusals, in the order of their numbers.
#[derive(Clone, Copy, Debug, PartialEq, Eq)]
pub enum Refusal {
    Header,
    Symbol,
    Starts,
    LongClause,
    Clause,
    LongQuery,
    Query,
    Store,
    Scratch,
    Text,
    Room,
    Goals,
    LooseClause,
    LooseQuery,
    Bars,
    Barred,
    Answers,
    NotNumber,
    Drill,
}

// The paper's number of an answer, which the C calls return: 0 where all is accepted.
pub fn number(answer: Result<(), Refusal>) -> u32
    ensures { result ≡ number_of answer }
{
    match answer {
        Ok(()) => 0,
        Err(why) => u32::from(why),
    }
}

// The paper's number of a refusal.
impl From<Refusal> for u32 {
    ghost from_gives = { λ why number. number ≡ refusal_number (refusal_for why) };

    fn from(why: Refusal) -> u32 {
        match why {
            Refusal::Header => 1,
            Refusal::Symbol => 2,
            Refusal::Starts => 3,
            Refusal::LongClause => 4,
            Refusal::Clause => 5,
            Refusal::LongQuery => 6,
            Refusal::Query => 7,
            Refusal::Store => 8,
            Refusal::Scratch => 9,
            Refusal::Text => 10,
            Refusal::Room => 11,
            Refusal::Goals => 12,
            Refusal::LooseClause => 13,
            Refusal::LooseQuery => 14,
            Refusal::Bars => 15,
            Refusal::Barred => 16,
            Refusal::Answers => 17,
            Refusal::NotNumber => 18,
            Refusal::Drill => 19,
        }
    }
}

// Whether a deck opens: refusals 1 to 5.
pub fn open(deck: &[u16]) -> Result<(), Refusal>
    ensures { number_of result ≡ checked_number (open_deck deck.now) }
{
    let mut table = [0; 4096];
    Opened::new(deck, &mut table)?;
    Ok(())
}

// Refusals 6 and 7 of a query over an opened deck; loose variables are looked at by `loose`.
pub fn check_query(deck: &Opened, query: &[u16]) -> Result<(), Refusal>
    ensures { (d : Deck) → open_deck deck.now.words.now ≡ accepted d → number_of result ≡ checked_number (read_query d query.now) }
{
    if 500 < query.len() {
        return Err(Refusal::LongQuery);
    }
    if !terms::literals(deck.symbols(), query) {
        return Err(Refusal::Query);
    }
    Ok(())
}

// Refusals 1 to 5 of the deck, then these.
pub fn check<'a>(
    deck: &'a [u16],
    query: &[u16],
    table: &'a mut [u16; 4096],
) -> Result<Opened<'a>, Refusal>
    ensures number { answer_number result ≡ checked_number (check_words deck.now query.now) }
    ensures words { IfOk result (λ opened. opened.words.now ≡ deck.now) }
{
    let opened = Opened::new(deck, table)?;
    check_query(&opened, query)?;
    Ok(opened)
}
