// Reading a text as a deck's words (document 02, U1).
#![tactic(auto)]

ghost use Rattle.std.specs.Prelude.{◌≡◌};
ghost use Rattle.reading.specs.declared.ReadError.TheVariants.{Refused};
ghost use Rattle.reading.specs.Reads.{DidRead};

use deck::Refusal;
use text::readable::Readable;

mod many;
mod room;
mod table;

// Why a text is not read: the place of refusal 10; another refusal.
#[derive(Clone, Copy, Debug, PartialEq, Eq)]
pub enum ReadError {
    Unreadable(usize),
    Refused(Refusal),
}

impl From<Refusal> for ReadError {
    ghost from_gives = { λ why error. error ≡ Refused why };

    fn from(why: Refusal) -> ReadError {
        ReadError::Refused(why)
    }
}

// THE PUBLIC CALL: the number of words. Refusal 10 of the text, then 11 where the words do not fit in the list or are over 16,384; both leave the list untouched.
// Then 1 to 5 of the deck, after which the list is free. Else the list begins with the deck's words, and the words after them are as they were. A number (a): `leads_read_text` tells it.
pub fn read_text(text: &[u8], deck: &mut [u16]) -> Result<usize, ReadError>
    ensures { DidRead text.now deck.old result deck.new }
{
    // A `match` (c): with `map_err(ReadError::Unreadable)?` the goal `returns-in_err-text` stayed open.
    match Readable::new(text) {
        Ok(text) => table::read_items(text, deck),
        Err(place) => Err(ReadError::Unreadable(place)),
    }
}
