// What is printed of a press that was not refused.
ghost use Rattle.std.specs.Prelude.{◌≡◌, ◌+◌, ◌≤◌, ◌++◌, ◌∷◌, [], length};
ghost use Rattle.rules.specs.CarryProgram.{number_bytes};
ghost use Rattle.rules.specs.Listing.{stop_text};
ghost use Rattle.report.specs.Reports.{stop_of, advance_of};
ghost use Rattle.evaluation.specs.Displays.{display_of};
ghost use Rattle.listing.specs.Put.{Adds};
ghost use Rattle.press_program.specs.PressProgram.{advance_text, numbers_bytes};
ghost use Rattle.press_program.specs.Showing.{SomeShowing, ShowingPrinted};

use deck::opened::Opened;
use evaluation::press::Display;
use listing::output::Output;
use report::{Advance, Stop};
use stored::OpenCounts;

// The stop that prevented a step, as a line.
fn stop_line(stop: Stop) -> &'static [u8]
    ensures { result.now ≡ stop_text (stop_of stop) ++ (10 ∷ []) }
{
    match stop {
        Stop::Finished => b"finished\n",
        Stop::Budget => b"budget\n",
        Stop::Answers => b"answers\n",
        Stop::Store => b"store\n",
    }
}

// What a press came to, as a line.
fn line(advance: Advance) -> &'static [u8]
    ensures { result.now ≡ advance_text (advance_of advance) ++ (10 ∷ []) }
{
    match advance {
        Advance::Stepped => b"stepped\n",
        Advance::Prevented(stop) => stop_line(stop),
    }
}

// A number of 64 bits, low byte first.
fn put_number(out: &mut Output, n: u64)
    requires { out.old.at + 8 ≤ length out.old.bytes.now }
    ensures { Adds out.old (number_bytes 8 n) out.new }
{
    out.put(&n.to_le_bytes());
}

// The record, and the number of answer terms.
fn put_numbers(out: &mut Output, display: Display, terms: u64)
    requires { out.old.at + 48 ≤ length out.old.bytes.now }
    ensures { Adds out.old (numbers_bytes (display_of display) terms) out.new }
{
    put_number(out, display.steps);
    put_number(out, display.cost);
    put_number(out, display.answers);
    put_number(out, display.pending);
    put_number(out, display.parked);
    put_number(out, terms);
}

// The line, and then the display's file: the numbers, and the goals' words, which the store begins with.
pub fn put_press(
    deck: &Opened,
    terms: u64,
    store: &[u16; 16384],
    advance: Advance,
    display: Display,
    bytes: &mut [u8; 32825],
) -> usize
    requires { SomeShowing deck.now.words.now terms store.now (advance_of advance) (display_of display) }
    ensures { ShowingPrinted deck.now.words.now terms store.now (advance_of advance) (display_of display) bytes.old result bytes.new }
{
    let counts = OpenCounts {
        pending: display.pending,
        parked: display.parked,
        terms,
    };
    let Some((_, end)) = stored::deck_goals(deck, store, counts) else {
        return 0;
    };
    let mut out = Output::new(bytes);
    out.put(line(advance));
    put_numbers(&mut out, display, terms);
    out.put_words(&store[..end]);
    out.at
}
