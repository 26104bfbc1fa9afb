// The program: reads the deck from survey.dck, and a column's number and the query from standard input, and prints the mean of that column of the answers, or a refusal.
#![tactic(auto)]

ghost use Rattle.std.specs.Prelude.{ℕ, List, OnOk};
ghost use Rattle.std.proofs.Math.Option.{Option};
ghost use Rattle.std.specs.Io.KnownBytes.{Appends, Consumes};
ghost use Rattle.mean_program.specs.MeanProgram.{mean_program};
ghost use Rattle.bytes_io.specs.Prefix.{TookFrom};

use bytes_io::{first_bytes, taken};
use std::io::{Read, Write};
use std::{fs, io};

fn main(rt: HostRuntime) -> io::Result<()> {
    let file = fs::open(&rt, "survey.dck").ok();
    answer(file, &mut rt.stdin(), &mut io::writer(&rt))
}

// Reads the deck from the file, if it is open, and the column's number and the query from the input, and writes the mean.
// No more is read than it takes to tell that there is too much.
// No function for all programs takes the rule's function: this contract would stay here, and that function would need one as long, over any rule.
fn answer<D: Read + Drop, Q: Read, W: Write>(
    file: Option<D>,
    input: &mut Q,
    to: &mut W,
) -> io::Result<()>
    ensures { OnOk result ((deck : Option (List ℕ)) × (query : List ℕ)
        × TookFrom D.remaining file deck
        × Consumes (Q.remaining input.old) (Q.remaining input.new) query
        × Appends (W.contents to.old) (W.contents to.new) (mean_program deck query)) }
{
    let mut deck_room = [0u8; 32770];
    let mut query_room = [0u8; 1004];
    let mut out = [0u8; 64];
    let deck = first_bytes(file, &mut deck_room);
    let query = taken(input, &mut query_room);
    let n = mean_program::mean_printed(deck, query, &mut out);
    to.write_all(&out[..n])
}
