// A line of output: a case's name, and a number.
use std::fmt::Display;
use std::io;

pub fn line(rt: &impl Print, name: &str, number: impl Display + Drop) -> io::Result<()> {
    println!(rt; "{name}: {number}")
}

pub fn opened(rt: &impl Print, name: &str, deck: &[u16]) -> io::Result<()> {
    line(rt, name, deck::number(deck::open(deck)))
}

pub fn checked(rt: &impl Print, name: &str, deck: &[u16], query: &[u16]) -> io::Result<()> {
    line(rt, name, deck::number(loose::check_query(deck, query)))
}
