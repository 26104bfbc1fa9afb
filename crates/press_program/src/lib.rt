// The program that presses once, as a function on bytes (document 02, U14), for a member (U9): from the bytes of its inputs to those that are printed.
#![tactic(auto)]

ghost use Rattle.std.specs.Prelude.{◌≤◌, length};
ghost use Rattle.std.proofs.Math.Option.{some};
ghost use Rattle.rules.specs.CarryProgram.{budget_from};
ghost use Rattle.listing.specs.Printed.{file_of, Printed};
ghost use Rattle.program_parts.specs.Answers.{Prints};
ghost use Rattle.press_program.specs.PressProgram.{press_bytes, press_run, press_text, press_program};

use carry_program::bars::bars_of;
use carry_program::input::{budget, number};
use deck::Refusal;
use deck::opened::Opened;
use evaluation::press::press_display;
use input::{display, display_file};
use listing::input::read_words;
use program::input::opened_deck;
use program::lists::Lists;
use program_parts::or_refusal;
use showing::put_press;

mod input;
mod showing;

// One press from a display's file, if there is one, with a member's list in a file, if there is one, and a budget. What is printed stands at the start of
// `out`, whose other bytes stay; the result is how many bytes.
// A number beside the room (c), as in the other programs on bytes.
pub fn press_printed(
    deck: Option<&[u8]>,
    display: Option<&[u8]>,
    bars: Option<&[u8]>,
    limit: &[u8],
    out: &mut [u8; 32825],
) -> usize
    ensures { Printed (press_program (file_of deck.entry) (file_of display.entry) (file_of bars.entry) (budget_from (some limit.now))) out.old result out.new }
{
    let most = budget(Some(limit));
    let printed = pressed(deck, display, bars, most, out);
    or_refusal(printed, out)
}

// What is printed, or why there is nothing.
fn pressed(
    deck: Option<&[u8]>,
    display: Option<&[u8]>,
    bars: Option<&[u8]>,
    budget: u32,
    out: &mut [u8; 32825],
) -> Result<usize, Refusal>
    ensures { Prints press_text (press_run (file_of deck.entry) (file_of display.entry) (file_of bars.entry) budget) out.old result out.new }
{
    let mut room = [0u16; 16384];
    let deck = opened_deck(deck, &mut room)?;
    let display = display_file(display)?;
    press_bytes(deck, display, bars, budget, out)
}

// The same from the deck's words and a display's file of a possible length on.
fn press_bytes(
    deck: &[u16],
    bytes: &[u8],
    bars: Option<&[u8]>,
    budget: u32,
    out: &mut [u8; 32825],
) -> Result<usize, Refusal>
    requires { (48 ≤ length bytes.now) × (length bytes.now ≤ 32816) }
    ensures { Prints press_text (press_bytes deck.now bytes.now (file_of bars.entry) budget) out.old result out.new }
{
    let mut table = [0; 4096];
    let opened = Opened::new(deck, &mut table)?;
    let mut room = [0; 4096];
    let bars = bars_of(&opened, bars, &mut room);
    let mut lists = Lists::new();
    let mut display = display(bytes);
    let terms = number(bytes, 40);
    read_words(&bytes[48..], &mut lists.store);
    let advance = press_display(
        deck,
        terms,
        bars,
        budget,
        &mut display,
        &mut lists.answers,
        &mut lists.store,
        &mut lists.scratch,
    )?;
    Ok(put_press(&opened, terms, &lists.store, advance, display, out))
}
