// Drill terms of small decks: the refusal's number or how many terms were written, and then the words of the lent list.
#![tactic(auto)]

use std::fmt::Display;
use std::io;

fn show(rt: &impl Print, kind: &str, number: impl Display + Drop, list: &[u16]) -> io::Result<()> {
    print!(rt; "{kind} {number}:")?;
    for word in list {
        print!(rt; " {word}")?;
    }
    println!(rt; "")
}

fn call(rt: &impl Print, deck: &[u16], n: u32, given: &[u16], list: &mut [u16]) -> io::Result<()> {
    match drill::drill(deck, n, given, list) {
        Ok(count) => show(rt, "written", count, list),
        Err(why) => show(rt, "refused", u32::from(why), list),
    }
}

// Two constants, 0 and 3; a unary functor, 1; a predicate, 2; a binary functor, 4.
fn small(rt: &impl Print, n: u32, given: &[u16]) -> io::Result<()> {
    let deck = [1, 5, 8, 0, 13, 0, 13, 13, 0, 1, 257, 0, 2];
    let mut none = [];
    call(rt, &deck, n, given, &mut none)?;
    let mut few = [777; 7];
    call(rt, &deck, n, given, &mut few)?;
    let mut many = [777; 23];
    call(rt, &deck, n, given, &mut many)
}

// 4,096 symbols: symbol 100 is a binary functor, the others are constants.
fn large(rt: &impl Print, given: &[u16]) -> io::Result<()> {
    let mut deck = [0; 4104];
    deck[0] = 1;
    deck[1] = 4096;
    deck[2] = 8;
    deck[4] = 4104;
    deck[6] = 4104;
    deck[7] = 4104;
    deck[108] = 2;
    let mut list = [777; 11];
    call(rt, &deck, 8, given, &mut list)
}

fn main(rt: HostRuntime) -> io::Result<()> {
    small(&rt, 0, &[])?;
    small(&rt, 0, &[0])?;
    small(&rt, 1, &[])?;
    small(&rt, 3, &[])?;
    small(&rt, 3, &[3])?;
    small(&rt, 3, &[1, 3])?;
    small(&rt, 3, &[4, 0, 3])?;
    small(&rt, 3, &[4, 3, 3])?;
    small(&rt, 2, &[4, 3, 3])?;
    small(&rt, 8, &[4, 3, 3])?;
    small(&rt, 8, &[1, 1, 1, 1, 1, 1, 1, 3])?;
    small(&rt, 8, &[4, 4, 4, 3, 3, 3, 1, 3])?;
    small(&rt, 9, &[])?;
    small(&rt, 3, &[1])?;
    small(&rt, 3, &[0, 0])?;
    small(&rt, 3, &[32768])?;
    small(&rt, 3, &[2, 0])?;
    small(&rt, 3, &[5])?;
    small(&rt, 3, &[65535])?;
    large(&rt, &[])?;
    large(&rt, &[4095])?;
    large(&rt, &[100, 0, 4095])?;
    large(&rt, &[100, 4095, 4095])?;
    large(&rt, &[100, 100, 4095, 4095, 4095])?;
    large(&rt, &[100, 4095, 100, 4095, 4095])?;
    large(&rt, &[100])?;
    call(&rt, &[1, 0, 8, 0, 8, 0, 8, 8], 9, &[], &mut [777])
}
