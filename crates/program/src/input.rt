// The words of a program's two inputs.
ghost use Rattle.rules.specs.Program.{query_input};
ghost use Rattle.rules.specs.CarryProgram.{deck_input};
ghost use Rattle.listing.specs.Printed.{file_of};
ghost use Rattle.program_parts.specs.Answers.{ComesTo};

use deck::Refusal;
use program_parts::{deck_words, words_of};

// The words of the deck file, if there is one, and if they open: else refusals 1 to 5.
pub fn opened_deck<'a>(
    file: Option<&[u8]>,
    words: &'a mut [u16; 16384],
) -> Result<&'a [u16], Refusal>
    ensures { ComesTo (deck_input (file_of file.entry)) result }
{
    let words = deck_words(file, words)?;
    deck::open(words)?;
    Ok(words)
}

// The words of the query: else refusals 6 and 7 by its bytes.
pub fn query_words<'a>(query: &[u8], words: &'a mut [u16; 500]) -> Result<&'a [u16], Refusal>
    ensures { ComesTo (query_input query.now) result }
{
    if 1000 < query.len() {
        return Err(Refusal::LongQuery);
    }
    if !query.len().is_multiple_of(2) {
        return Err(Refusal::Query);
    }
    Ok(words_of(query, words))
}
