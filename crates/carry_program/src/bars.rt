// A member's list from a file (document 02, U9).
ghost use Rattle.std.specs.Prelude.{◌≡◌, length, replicate};
ghost use Rattle.rules.specs.Syntax.{Deck};
ghost use Rattle.rules.specs.Refusals.{accepted};
ghost use Rattle.rules.specs.Decks.{open_deck};
ghost use Rattle.rules.specs.CarryProgram.{bars_from};
ghost use Rattle.listing.specs.Printed.{file_of};

use deck::opened::Opened;
use program::bars::nothing_barred;
use program_parts::{are_words, words_of};

// Without a file nothing is barred. A file that is not one of words, or of too many, comes to an empty list.
pub fn bars_of<'a>(deck: &Opened, file: Option<&[u8]>, words: &'a mut [u16; 4096]) -> &'a [u16]
    requires { words.old ≡ replicate 4096 0 }
    ensures { (d : Deck) → open_deck deck.now.words.now ≡ accepted d → result.now ≡ bars_from (length d.symbols) (file_of file.entry) }
{
    let Some(bytes) = file else {
        return nothing_barred(deck, words);
    };
    if !are_words(bytes, 0, 8192) {
        return &[];
    }
    words_of(bytes, words)
}
