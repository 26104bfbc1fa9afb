// The words of a text, and the line of refusal 10.
ghost use Rattle.std.specs.Prelude.{◌*◌, ◌<◌, ◌≤◌, length};
ghost use Rattle.rules.specs.Program.{bytes_from};
ghost use Rattle.text_rules.specs.TextProgram.{place_line};
ghost use Rattle.listing.specs.Put.{Put};

use deck::Refusal;
use listing::output::Output;

// Prints the words, low byte first.
// A number beside the room (c): tried as a `&'a [u8]` of it with `follows_so`; the check wants `printed_spec` by hand, and a caller's `c.out-1.given` stays open.
pub fn put_deck(bytes: &mut [u8], words: &[u16]) -> usize
    requires { 2 * length words.now ≤ length bytes.old }
    ensures { Put bytes.old 0 (bytes_from words.now) result bytes.new }
{
    let mut out = Output::new(bytes);
    out.put_words(words)
}

pub fn put_place(bytes: &mut [u8], place: usize) -> usize
    requires { (22 ≤ length bytes.old) × (place < 4294967296) }
    ensures { Put bytes.old 0 (place_line place) result bytes.new }
{
    let mut out = Output::new(bytes);
    out.put(b"refused ");
    out.put_number(u32::from(Refusal::Text));
    // `as`, since the clauses say that it fits: `try_from` has an error that cannot come.
    out.put_prefixed(b' ', place as u32);
    out.put(b"\n");
    out.at
}
