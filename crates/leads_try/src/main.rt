// The program that tries a clause, for a member: reads the deck from survey.dck, the clause from the file clause and the member's list from the file bars, if
// there are such files, and the query from standard input; prints the listing with the clause at the deck's end.
#![tactic(auto)]

ghost use Rattle.std.specs.Prelude.{ℕ, List, OnOk};
ghost use Rattle.std.proofs.Math.Option.{Option};
ghost use Rattle.std.specs.Io.KnownBytes.{Appends, Consumes};
ghost use Rattle.rules.specs.PreviewProgram.{preview_program};
ghost use Rattle.bytes_io.specs.Prefix.{TookFrom};

use bytes_io::{first_bytes, taken};
use std::io::{Read, Write};
use std::{fs, io};

fn main(rt: HostRuntime) -> io::Result<()> {
    let file = fs::open(&rt, "survey.dck").ok();
    let added = fs::open(&rt, "clause").ok();
    let barred = fs::open(&rt, "bars").ok();
    answer(file, added, barred, &mut rt.stdin(), &mut io::writer(&rt))
}

// Reads the deck, the clause and the member's list from their files, if they are open, and the query from the input, and writes the listing.
// No more is read than it takes to tell that there is too much.
fn answer<D: Read + Drop, C: Read + Drop, B: Read + Drop, Q: Read, W: Write>(
    file: Option<D>,
    added: Option<C>,
    barred: Option<B>,
    input: &mut Q,
    to: &mut W,
) -> io::Result<()>
    ensures { OnOk result ((deck : Option (List ℕ)) × (clause : Option (List ℕ)) × (bars : Option (List ℕ)) × (query : List ℕ)
        × TookFrom D.remaining file deck
        × TookFrom C.remaining added clause
        × TookFrom B.remaining barred bars
        × Consumes (Q.remaining input.old) (Q.remaining input.new) query
        × Appends (W.contents to.old) (W.contents to.new) (preview_program deck clause query bars)) }
{
    let mut deck_room = [0u8; 32770];
    let mut clause_room = [0u8; 32770];
    let mut query_room = [0u8; 1002];
    let mut bars_room = [0u8; 8194];
    let mut out = [0u8; 65605];
    let deck = first_bytes(file, &mut deck_room);
    let clause = first_bytes(added, &mut clause_room);
    let bars = first_bytes(barred, &mut bars_room);
    let query = taken(input, &mut query_room);
    let n = preview_program::printed(deck, clause, query, bars, &mut out);
    to.write_all(&out[..n])
}
