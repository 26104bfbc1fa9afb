// The program: reads the deck from survey.dck, N and the given term from standard input, and prints the drill terms, or a refusal.
#![tactic(auto)]

ghost use Rattle.std.specs.Prelude.{ℕ, List, OnOk};
ghost use Rattle.std.proofs.Math.Option.{Option};
ghost use Rattle.std.specs.Io.KnownBytes.{Appends, Consumes};
ghost use Rattle.rules.specs.DrillProgram.{drill_program};
ghost use Rattle.bytes_io.specs.Prefix.{TookFrom};

use bytes_io::{first_bytes, taken};
use std::io::{Read, Write};
use std::{fs, io};

fn main(rt: HostRuntime) -> io::Result<()> {
    let file = fs::open(&rt, "survey.dck").ok();
    answer(file, &mut rt.stdin(), &mut io::writer(&rt))
}

// Reads the deck from the file, if it is open, and N and the given term from the input, and writes the drill terms.
// No more is read than it takes to tell that there is too much.
// No function for all programs takes the rule's function: this contract would stay here, and that function would need one as long, over any rule.
fn answer<D: Read + Drop, Q: Read, W: Write>(
    file: Option<D>,
    given: &mut Q,
    to: &mut W,
) -> io::Result<()>
    ensures { OnOk result ((deck : Option (List ℕ)) × (input : List ℕ)
        × TookFrom D.remaining file deck
        × Consumes (Q.remaining given.old) (Q.remaining given.new) input
        × Appends (W.contents to.old) (W.contents to.new) (drill_program deck input)) }
{
    let mut deck_room = [0u8; 32770];
    let mut input_room = [0u8; 20];
    let mut out = [0u8; 32768];
    let deck = first_bytes(file, &mut deck_room);
    let input = taken(given, &mut input_room);
    let n = drill_program::drill_printed(deck, input, &mut out);
    to.write_all(&out[..n])
}
