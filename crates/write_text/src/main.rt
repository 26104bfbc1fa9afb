// The program: reads the deck from survey.dck, and prints it as text, or a refusal.
#![tactic(auto)]

ghost use Rattle.std.specs.Prelude.{ℕ, List, OnOk};
ghost use Rattle.std.proofs.Math.Option.{Option};
ghost use Rattle.std.specs.Io.KnownBytes.{Appends};
ghost use Rattle.text_rules.specs.TextProgram.{write_program};
ghost use Rattle.bytes_io.specs.Prefix.{TookFrom};

use bytes_io::first_bytes;
use std::io::{Read, Write};
use std::{fs, io};

fn main(rt: HostRuntime) -> io::Result<()> {
    let file = fs::open(&rt, "survey.dck").ok();
    answer(file, &mut io::writer(&rt))
}

// Reads the deck from the file, if it is open, and writes its text.
// No more is read than it takes to tell that there is too much.
// No function for all programs takes the rule's function: this contract would stay here, and that function would need one as long, over any rule.
fn answer<D: Read + Drop, W: Write>(file: Option<D>, to: &mut W) -> io::Result<()>
    ensures { OnOk result ((deck : Option (List ℕ))
        × TookFrom D.remaining file deck
        × Appends (W.contents to.old) (W.contents to.new) (write_program deck)) }
{
    let mut deck_room = [0u8; 32770];
    let mut out = [0u8; 262144];
    let deck = first_bytes(file, &mut deck_room);
    let n = text_program::write_printed(deck, &mut out);
    to.write_all(&out[..n])
}
