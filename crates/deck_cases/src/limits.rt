// Decks at the limits of the format.
use crate::build::Shape;
use crate::{build, show};
use std::io;

// A built deck with the word at a place replaced.
fn changed(rt: &impl Print, name: &str, shape: Shape, at: usize, word: u16) -> io::Result<()> {
    let mut words = [0u16; 16400];
    build::deck(&mut words, shape);
    build::put(&mut words, at, word);
    match words.get(..shape.end()) {
        Some(deck) => show::opened(rt, name, deck),
        None => Ok(()),
    }
}

// A built deck: its format word is 1.
fn of_size(rt: &impl Print, name: &str, shape: Shape) -> io::Result<()> {
    changed(rt, name, shape, 0, 1)
}

pub fn sizes(rt: &impl Print) -> io::Result<()> {
    show::opened(rt, "no words", &[])?;
    show::opened(rt, "seven words", &[1, 1, 8, 0, 9, 0, 9])?;
    show::opened(rt, "a word too few", &[1, 1, 8, 0, 9, 0, 9, 9])?;
    show::opened(rt, "a word too many", &[1, 1, 8, 0, 9, 0, 9, 9, 256, 0])?;
    of_size(rt, "1 symbol", Shape::new(1, 0, 0, 1))?;
    of_size(rt, "0 symbols", Shape::new(0, 0, 0, 1))?;
    of_size(rt, "4,096 symbols", Shape::new(4096, 0, 0, 1))?;
    of_size(rt, "4,097 symbols", Shape::new(4097, 0, 0, 1))?;
    of_size(rt, "16,384 words", Shape::new(1, 125, 16250, 130))?;
    of_size(rt, "16,385 words", Shape::new(2, 125, 16250, 130))
}

// Of two symbols the second, which no clause uses.
fn of_symbol(rt: &impl Print, name: &str, word: u16) -> io::Result<()> {
    changed(rt, name, Shape::new(2, 1, 1, 1), 9, word)
}

pub fn arities(rt: &impl Print) -> io::Result<()> {
    of_symbol(rt, "symbol word 15", 15)?;
    of_symbol(rt, "symbol word 16", 16)?;
    of_symbol(rt, "symbol word 255", 255)?;
    of_symbol(rt, "symbol word 256", 256)?;
    of_symbol(rt, "symbol word 271", 271)?;
    of_symbol(rt, "symbol word 272", 272)
}

pub fn starts(rt: &impl Print) -> io::Result<()> {
    of_size(rt, "no clause, no cell", Shape::new(1, 0, 0, 1))?;
    of_size(rt, "no clause, one cell", Shape::new(1, 0, 1, 1))?;
    of_size(rt, "one clause, no cell", Shape::new(1, 1, 0, 1))?;
    of_size(rt, "one clause, one cell", Shape::new(1, 1, 1, 1))?;
    of_size(rt, "two clauses, one cell", Shape::new(1, 2, 1, 1))?;
    of_size(rt, "two clauses at one start", Shape::new(1, 2, 2, 0))
}

// With one symbol and two clauses the cells begin at word 11.
pub fn lengths(rt: &impl Print) -> io::Result<()> {
    of_size(rt, "a clause of 256 cells", Shape::new(1, 1, 256, 1))?;
    of_size(rt, "a clause of 257 cells", Shape::new(1, 1, 257, 1))?;
    of_size(rt, "the first of 257 cells", Shape::new(1, 2, 258, 257))?;
    of_size(rt, "the last of 257 cells", Shape::new(1, 2, 258, 1))?;
    changed(
        rt,
        "the last of 257 cells, the first bad",
        Shape::new(1, 2, 258, 1),
        11,
        1,
    )?;
    of_size(rt, "the last of 256 cells", Shape::new(1, 2, 257, 1))?;
    changed(
        rt,
        "the last of 256 cells, its last bad",
        Shape::new(1, 2, 257, 1),
        267,
        1,
    )
}
