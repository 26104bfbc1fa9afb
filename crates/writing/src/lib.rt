// A deck as text (document 02, U1 and U10).
#![tactic(auto)]

ghost use Rattle.writing.specs.Writes.{Wrote, result_of};

use deck::Refusal;
use deck::opened::Opened;
use listing::output::Output;

mod clauses;
mod lengths;
mod literals;
mod symbols;

// THE PUBLIC CALL. Refusals 1 to 5 of the deck, then 11 where the text is longer than the list; each leaves the list untouched.
// Else the list begins with the text, and the bytes after it are as they were. Returns the number of bytes,
// and no part of the list (a): the C call leads_write_text tells the number.
pub fn write_text(deck: &[u16], text: &mut [u8]) -> Result<usize, Refusal>
    ensures { Wrote deck.now text.old (result_of result) text.new }
{
    let mut table = [0; 4096];
    let opened = Opened::new(deck, &mut table)?;
    write_open(&opened, text)
}

fn write_open(deck: &Opened, text: &mut [u8]) -> Result<usize, Refusal>
    ensures { Wrote deck.now.words.now text.old (result_of result) text.new }
{
    if text.len() < lengths::deck_length(deck) {
        return Err(Refusal::Room);
    }
    let mut out = Output::new(text);
    symbols::put_declarations(&mut out, deck);
    clauses::put_clauses(&mut out, deck);
    Ok(out.at)
}
