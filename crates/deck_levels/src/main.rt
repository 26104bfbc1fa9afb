// The program: reads the deck from survey.dck, and prints its levels as words, low byte first, or a refusal.
#![tactic(auto)]

ghost use Rattle.std.specs.Prelude.{ℕ, List, OnOk};
ghost use Rattle.std.proofs.Math.Option.{Option};
ghost use Rattle.std.specs.Io.KnownBytes.{Appends};
ghost use Rattle.ranks_program.specs.LevelsProgram.{LevelsText};
ghost use Rattle.bytes_io.specs.Prefix.{TookFrom};

use bytes_io::first_bytes;
use std::io::{Read, Write};
use std::{fs, io};

fn main(rt: HostRuntime) -> io::Result<()> {
    let file = fs::open(&rt, "survey.dck").ok();
    answer(file, &mut io::writer(&rt))
}

// Reads the deck from the file, if it is open, and writes its levels.
// No more is read than it takes to tell that there is too much.
// No function for all programs takes the rule's function: this contract would stay here, and that function would need one as long, over any rule.
fn answer<D: Read + Drop, W: Write>(file: Option<D>, to: &mut W) -> io::Result<()>
    ensures { OnOk result ((deck : Option (List ℕ)) × (text : List ℕ)
        × TookFrom D.remaining file deck
        × LevelsText deck text
        × Appends (W.contents to.old) (W.contents to.new) text) }
{
    let mut deck_room = [0u8; 32770];
    let mut out = [0u8; 8196];
    let deck = first_bytes(file, &mut deck_room);
    let n = ranks_program::levels_printed(deck, &mut out);
    to.write_all(&out[..n])
}
