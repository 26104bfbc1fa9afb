// Opens decks and checks queries that are right, damaged or at a limit, and writes the numbers of the answers, 0 where all is accepted.
#![tactic(auto)]

use std::io;

mod build;
mod damage;
mod limits;
mod numbers;
mod queries;
mod reading;
mod show;

fn main(rt: HostRuntime) -> io::Result<()> {
    damage::headers(&rt)?;
    damage::symbols_and_starts(&rt)?;
    damage::heads(&rt)?;
    damage::cells(&rt)?;
    damage::two_at_once(&rt)?;
    limits::sizes(&rt)?;
    limits::arities(&rt)?;
    limits::starts(&rt)?;
    limits::lengths(&rt)?;
    queries::accepted(&rt)?;
    queries::no_literals(&rt)?;
    queries::misnumbered(&rt)?;
    queries::loose(&rt)?;
    queries::loose_clauses(&rt)?;
    queries::lengths(&rt)?;
    reading::kinds(&rt)?;
    reading::clauses(&rt, &damage::deck_l())?;
    numbers::headers(&rt)?;
    numbers::words(&rt)?;
    numbers::equal_values(&rt)?;
    numbers::values(&rt)
}
