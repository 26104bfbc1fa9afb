// The program with a budget, for a member: reads the deck from survey.dck, the member's list from the file bars and the budget from the file budget, if
// there are such files, and the query from standard input; prints the listing, and writes the goals left to open.goals.new.
#![tactic(auto)]

ghost use Rattle.std.specs.Prelude.{ℕ, List, OnOk};
ghost use Rattle.std.proofs.Math.Option.{Option};
ghost use Rattle.std.specs.Io.KnownBytes.{Appends, Consumes};
ghost use Rattle.rules.specs.CarryProgram.{budget_from, open_run, kept_listing};
ghost use Rattle.bytes_io.specs.Prefix.{TookFrom};

use bytes_io::{first_bytes, keep, taken};
use std::io::{Read, Write};
use std::rt::Files;
use std::{fs, io};

fn main(rt: HostRuntime) -> io::Result<()> {
    let file = fs::open(&rt, "survey.dck").ok();
    let barred = fs::open(&rt, "bars").ok();
    let given = fs::open(&rt, "budget").ok();
    answer(
        &rt,
        file,
        barred,
        given,
        &mut rt.stdin(),
        &mut io::writer(&rt),
    )
}

// Reads the deck, the member's list and the budget from their files, if they are open, and the query from the input; keeps the goals left, and writes the listing.
// No more is read than it takes to tell that there is too much; of a budget 32 bytes.
// No function for all programs takes the rule's function: this contract would stay here, and that function would need one as long, over any rule.
fn answer<D: Read + Drop, B: Read + Drop, L: Read + Drop, Q: Read, W: Write>(
    rt: &impl Files,
    file: Option<D>,
    barred: Option<B>,
    given: Option<L>,
    input: &mut Q,
    to: &mut W,
) -> io::Result<()>
    ensures { OnOk result ((deck : Option (List ℕ)) × (bars : Option (List ℕ)) × (limit : Option (List ℕ)) × (query : List ℕ)
        × TookFrom D.remaining file deck
        × TookFrom B.remaining barred bars
        × TookFrom L.remaining given limit
        × Consumes (Q.remaining input.old) (Q.remaining input.new) query
        × Appends (W.contents to.old) (W.contents to.new)
        (kept_listing (open_run deck query bars (budget_from limit)))) }
{
    let mut deck_room = [0u8; 32770];
    let mut query_room = [0u8; 1002];
    let mut bars_room = [0u8; 8194];
    let mut limit_room = [0u8; 32];
    let mut out = [0u8; 65605];
    let mut left = [0u8; 32792];
    let deck = first_bytes(file, &mut deck_room);
    let bars = first_bytes(barred, &mut bars_room);
    let limit = first_bytes(given, &mut limit_room);
    let query = taken(input, &mut query_room);
    let outputs = carry_program::open_printed(deck, query, bars, limit, &mut out, &mut left);
    if let Some(g) = outputs.goals {
        keep(rt, "open.goals.new", &left[..g]);
    }
    let n = outputs.listing;
    to.write_all(&out[..n])
}
