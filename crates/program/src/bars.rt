// The list of a member to whom nothing is barred: the programs have no other (document 02, U9).
ghost use Rattle.std.specs.Prelude.{◌≡◌, length, replicate};
ghost use Rattle.rules.specs.Syntax.{Deck};
ghost use Rattle.rules.specs.Refusals.{accepted};
ghost use Rattle.rules.specs.Decks.{open_deck};

use deck::opened::Opened;

// As many zeros as the deck has symbols.
pub fn nothing_barred<'a>(deck: &Opened, zeros: &'a [u16; 4096]) -> &'a [u16]
    requires { zeros.now ≡ replicate 4096 0 }
    ensures { (d : Deck) → open_deck deck.now.words.now ≡ accepted d → result.now ≡ replicate (length d.symbols) 0 }
{
    &zeros[..deck.symbols().len()]
}
