// Texts of over 4,096 declarations, which are no decks: nothing is written.
ghost use Rattle.std.specs.Prelude.{◌≡◌, List, ℕ, ◌<◌, length, Err};
ghost use Rattle.std.proofs.Math.Option.{none};
ghost use Rattle.text_rules.specs.TextWords.{declared_twice};
ghost use Rattle.text_rules.specs.Text.{text_declarations, bad_place};
ghost use Rattle.reading.specs.declared.ReadError.TheVariants.{Refused};
ghost use Rattle.reading.specs.Reads.{DidRead};

use crate::{ReadError, room};
use deck::Refusal;
use encoding::sizes;
use naming::walks::Declarations;
use naming::{walks, windows};
use text::readable::Readable;
use uses::batch::misused_in_batches;

// Why such a text is not read into a list of so many words.
#[inline(never)]
pub fn error(text: Readable, words: usize) -> ReadError
    requires { 4096 < length (text_declarations text.text.now) }
    ensures { (before : List ℕ) → length before ≡ words → DidRead text.entry.text.now before (Err result) before }
{
    match windows::declared_twice(text) {
        Some(place) => ReadError::Unreadable(place),
        None => error_once(walks::count(text), words),
    }
}

// Its names are declared once each.
fn error_once(all: Declarations, words: usize) -> ReadError
    requires once { declared_twice (text_declarations all.text.text.now) 0 (text_declarations all.text.text.now) ≡ none }
    requires many { 4096 < all.count }
    ensures { (before : List ℕ) → length before ≡ words → DidRead all.entry.text.text.now before (Err result) before }
{
    match misused_in_batches(all) {
        Some(name) => ReadError::Unreadable(name),
        None => ReadError::Refused(refusal(all, words)),
    }
}

// And well used.
fn refusal(all: Declarations, words: usize) -> Refusal
    requires { (bad_place all.text.text.now ≡ none) × (4096 < all.count) }
    ensures { (before : List ℕ) → length before ≡ words → DidRead all.entry.text.text.now before (Err (Refused result)) before }
{
    let s = sizes::sizes_of(all);
    if room::fits(all, s, words) {
        Refusal::Header
    } else {
        Refusal::Room
    }
}
