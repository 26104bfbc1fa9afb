// What cells stand for, and an opened deck read through its accessors.
ghost use Rattle.std.specs.Prelude.{◌<◌, length};
ghost use Rattle.rules.specs.Decks.{clause_words};

use crate::show;
use deck::kinds;
use deck::kinds::Kind;
use deck::opened::Opened;
use std::io;

fn kind(rt: &impl Print, symbols: &[u16], cell: u16) -> io::Result<()> {
    match kinds::read(symbols, cell) {
        Kind::Variable(v) => show::line(rt, "variable", v),
        Kind::Function(k) => show::line(rt, "functor", k),
        Kind::Positive(k) => show::line(rt, "predicate", k),
        Kind::Negative(k) => show::line(rt, "negated", k),
        Kind::Invalid => show::line(rt, "no cell", cell),
    }
}

// Symbols: a functor of 15 terms and a predicate of 15 terms.
fn of_two(rt: &impl Print, cell: u16) -> io::Result<()> {
    kind(rt, &[15, 271], cell)
}

pub fn kinds(rt: &impl Print) -> io::Result<()> {
    of_two(rt, 0)?;
    of_two(rt, 1)?;
    of_two(rt, 2)?;
    of_two(rt, 16383)?;
    of_two(rt, 16384)?;
    of_two(rt, 16385)?;
    of_two(rt, 16386)?;
    of_two(rt, 32767)?;
    of_two(rt, 32768)?;
    of_two(rt, 33791)?;
    of_two(rt, 33792)?;
    of_two(rt, 65535)
}

// Where clause i starts and ends, and its number of cells.
fn clause(rt: &impl Print, deck: &Opened, i: usize) -> io::Result<()>
    requires { i < length (clause_words deck.now.words.now) }
{
    let parts = deck.parts();
    show::line(rt, "starts", parts.clause_start(i))?;
    show::line(rt, "ends", parts.clause_end(i))?;
    show::line(rt, "cells", deck.clause(i).len())
}

fn each_clause(rt: &impl Print, deck: &Opened) -> io::Result<()> {
    for i in 0..deck.clause_count() {
        clause(rt, deck, i)?;
    }
    Ok(())
}

// What an accepted deck's clauses are, and its third symbol.
pub fn clauses(rt: &impl Print, deck: &[u16]) -> io::Result<()> {
    let mut table = [0; 4096];
    match Opened::new(deck, &mut table) {
        Ok(opened) => {
            each_clause(rt, &opened)?;
            kind(rt, opened.symbols(), 2)
        }
        Err(_) => show::line(rt, "clauses", 0),
    }
}
