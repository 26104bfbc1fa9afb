// The program that presses once, for a member: reads the deck from survey.dck, the display from the file display, the member's list from the file bars, if
// there is one, and the budget from standard input; prints what the press came to, and the display's file after it.
#![tactic(auto)]

ghost use Rattle.std.specs.Prelude.{ℕ, List, OnOk};
ghost use Rattle.std.specs.Io.KnownBytes.{Appends, Consumes};
ghost use Rattle.std.proofs.Math.Option.{Option, some};
ghost use Rattle.rules.specs.CarryProgram.{budget_from};
ghost use Rattle.press_program.specs.PressProgram.{press_program};
ghost use Rattle.bytes_io.specs.Prefix.{TookFrom};

use bytes_io::{first_bytes, taken};
use std::io::{Read, Write};
use std::{fs, io};

fn main(rt: HostRuntime) -> io::Result<()> {
    let file = fs::open(&rt, "survey.dck").ok();
    let before = fs::open(&rt, "display").ok();
    let barred = fs::open(&rt, "bars").ok();
    answer(file, before, barred, &mut rt.stdin(), &mut io::writer(&rt))
}

// Reads the deck, the display and the member's list from their files, if they are open, and the budget from the input, and writes what the press comes to.
// No more is read than it takes to tell that there is too much; of a budget 32 bytes.
// No function for all programs takes the rule's function: this contract would stay here, and that function would need one as long, over any rule.
fn answer<D: Read + Drop, G: Read + Drop, B: Read + Drop, L: Read, W: Write>(
    file: Option<D>,
    before: Option<G>,
    barred: Option<B>,
    input: &mut L,
    to: &mut W,
) -> io::Result<()>
    ensures { OnOk result ((deck : Option (List ℕ)) × (display : Option (List ℕ)) × (bars : Option (List ℕ)) × (limit : List ℕ)
        × TookFrom D.remaining file deck
        × TookFrom G.remaining before display
        × TookFrom B.remaining barred bars
        × Consumes (L.remaining input.old) (L.remaining input.new) limit
        × Appends (W.contents to.old) (W.contents to.new)
        (press_program deck display bars (budget_from (some limit)))) }
{
    let mut deck_room = [0u8; 32770];
    let mut display_room = [0u8; 32818];
    let mut bars_room = [0u8; 8194];
    let mut limit_room = [0u8; 32];
    let mut out = [0u8; 32825];
    let deck = first_bytes(file, &mut deck_room);
    let display = first_bytes(before, &mut display_room);
    let bars = first_bytes(barred, &mut bars_room);
    let limit = taken(input, &mut limit_room);
    let n = press_program::press_printed(deck, display, bars, limit, &mut out);
    to.write_all(&out[..n])
}
