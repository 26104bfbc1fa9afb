// The program that carries on, for a member: reads the deck from survey.dck, the goals from open.goals, the member's list from the file bars, if there is
// one, and the budget from standard input; prints the listing, and writes the goals left to open.goals.new.
#![tactic(auto)]

ghost use Rattle.std.specs.Prelude.{ℕ, List, OnOk};
ghost use Rattle.std.specs.Io.KnownBytes.{Appends, Consumes};
ghost use Rattle.std.proofs.Math.Option.{Option, some};
ghost use Rattle.rules.specs.CarryProgram.{budget_from, carry_run, kept_listing};
ghost use Rattle.bytes_io.specs.Prefix.{TookFrom};

use bytes_io::{first_bytes, keep, taken};
use std::io::{Read, Write};
use std::rt::Files;
use std::{fs, io};

fn main(rt: HostRuntime) -> io::Result<()> {
    let file = fs::open(&rt, "survey.dck").ok();
    let before = fs::open(&rt, "open.goals").ok();
    let barred = fs::open(&rt, "bars").ok();
    answer(
        &rt,
        file,
        before,
        barred,
        &mut rt.stdin(),
        &mut io::writer(&rt),
    )
}

// Reads the deck, the goals and the member's list from their files, if they are open, and the budget from the input; keeps the goals left, and writes the listing.
// No more is read than it takes to tell that there is too much; of a budget 32 bytes.
// No function for all programs takes the rule's function: this contract would stay here, and that function would need one as long, over any rule.
fn answer<D: Read + Drop, G: Read + Drop, B: Read + Drop, L: Read, W: Write>(
    rt: &impl Files,
    file: Option<D>,
    before: Option<G>,
    barred: Option<B>,
    input: &mut L,
    to: &mut W,
) -> io::Result<()>
    ensures { OnOk result ((deck : Option (List ℕ)) × (goals : Option (List ℕ)) × (bars : Option (List ℕ)) × (limit : List ℕ)
        × TookFrom D.remaining file deck
        × TookFrom G.remaining before goals
        × TookFrom B.remaining barred bars
        × Consumes (L.remaining input.old) (L.remaining input.new) limit
        × Appends (W.contents to.old) (W.contents to.new)
        (kept_listing (carry_run deck goals bars (budget_from (some limit))))) }
{
    let mut deck_room = [0u8; 32770];
    let mut goals_room = [0u8; 32794];
    let mut bars_room = [0u8; 8194];
    let mut limit_room = [0u8; 32];
    let mut out = [0u8; 65605];
    let mut left = [0u8; 32792];
    let deck = first_bytes(file, &mut deck_room);
    let goals = first_bytes(before, &mut goals_room);
    let bars = first_bytes(barred, &mut bars_room);
    let limit = taken(input, &mut limit_room);
    let outputs = carry_program::carry_printed(deck, goals, bars, limit, &mut out, &mut left);
    if let Some(g) = outputs.goals {
        keep(rt, "open.goals.new", &left[..g]);
    }
    let n = outputs.listing;
    to.write_all(&out[..n])
}
