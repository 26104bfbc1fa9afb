// Queries over deck L, and queries at the limit of length.
use crate::{build, damage, show};
use std::io;

fn asked(rt: &impl Print, name: &str, query: &[u16]) -> io::Result<()> {
    show::checked(rt, name, &damage::deck_l(), query)
}

pub fn accepted(rt: &impl Print) -> io::Result<()> {
    asked(rt, "no literals", &[])?;
    asked(rt, "which leads", &[4, 32768])?;
    asked(rt, "drawn b", &[3, 1])?;
    asked(
        rt,
        "three literals, two variables",
        &[4, 32768, 2, 32769, 16387, 32768],
    )
}

pub fn no_literals(rt: &impl Print) -> io::Result<()> {
    asked(rt, "a functor", &[0])?;
    asked(rt, "a variable", &[32768])?;
    asked(rt, "no term", &[4])?;
    asked(rt, "a term too many", &[4, 0, 0])?;
    asked(rt, "a predicate as term", &[3, 2])?;
    asked(rt, "a negated predicate as term", &[3, 16387])?;
    asked(rt, "no such symbol", &[3, 5])?;
    asked(rt, "no such predicate", &[5])?;
    asked(rt, "a negated functor", &[16384])
}

pub fn misnumbered(rt: &impl Print) -> io::Result<()> {
    asked(rt, "variable 1 first", &[4, 32769])?;
    asked(rt, "variable 2 second", &[4, 32768, 4, 32770])?;
    asked(rt, "variable 1023", &[4, 33791])?;
    asked(rt, "variable 1024", &[4, 33792])
}

pub fn loose(rt: &impl Print) -> io::Result<()> {
    asked(rt, "negated with a variable", &[16387, 32768])?;
    asked(rt, "another variable negated", &[4, 32768, 16387, 32769])?;
    asked(rt, "negated before it is held", &[16387, 32768, 2, 32768])
}

// Deck L with the word at a place replaced: a clause may have a loose variable.
fn asked_with(rt: &impl Print, name: &str, at: usize, word: u16, query: &[u16]) -> io::Result<()> {
    show::checked(rt, name, &damage::deck_l_with(&[(at, word)]), query)
}

pub fn loose_clauses(rt: &impl Print) -> io::Result<()> {
    asked_with(rt, "end of x", 18, 32768, &[3, 0])?;
    asked_with(rt, "lead x if end y", 26, 32769, &[3, 0])?;
    asked_with(rt, "not drawn y", 28, 32769, &[3, 0])?;
    asked_with(rt, "not drawn b", 28, 1, &[3, 0])?;
    asked_with(rt, "not drawn y, no literals", 28, 32769, &[])?;
    asked_with(rt, "not drawn y, not drawn x", 28, 32769, &[16387, 32768])?;
    asked_with(rt, "not drawn y, no term", 28, 32769, &[4])?;
    asked_with(rt, "not drawn z", 28, 32770, &[16387, 32768])
}

// Symbol 0 so many times, but for one cell.
fn of_length(
    rt: &impl Print,
    name: &str,
    deck: &[u16],
    length: usize,
    at: usize,
    cell: u16,
) -> io::Result<()> {
    let mut words = [0u16; 512];
    build::put(&mut words, at, cell);
    match words.get(..length) {
        Some(query) => show::checked(rt, name, deck, query),
        None => Ok(()),
    }
}

// The deck has one symbol, a predicate without terms.
pub fn lengths(rt: &impl Print) -> io::Result<()> {
    let deck = &[1, 1, 8, 0, 9, 0, 9, 9, 256];
    of_length(rt, "500 cells", deck, 500, 0, 0)?;
    of_length(rt, "501 cells", deck, 501, 0, 0)?;
    of_length(rt, "500 cells, the last bad", deck, 500, 499, 1)?;
    of_length(rt, "501 cells, the last bad", deck, 501, 500, 1)?;
    of_length(
        rt,
        "501 cells, a bad deck",
        &[1, 1, 8, 0, 9, 0, 9, 9, 272],
        501,
        0,
        0,
    )
}
