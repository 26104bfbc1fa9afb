// Decks of format 2: deck M, in which the shot of a is -35 and that of b 28, with words changed.
use crate::{build, show};
use deck::opened::Opened;
use std::io;

// Symbols: a, b, -35, 28, shot.
fn deck_m() -> [u16; 26] {
    [
        2, 5, 8, 2, 18, 6, 20, 26, 0, 0, 0, 0, 512, 65501, 512, 28, 258, 0, 0, 3, 4, 0, 2, 4, 1, 3,
    ]
}

fn with(rt: &impl Print, name: &str, changes: &[(usize, u16)]) -> io::Result<()> {
    let mut deck = deck_m();
    for (at, word) in changes {
        build::put(&mut deck, *at, *word);
    }
    show::opened(rt, name, &deck)
}

pub fn headers(rt: &impl Print) -> io::Result<()> {
    with(rt, "deck M", &[])?;
    with(rt, "deck M as format 1", &[(0, 1)])?;
    with(rt, "deck M as format 3", &[(0, 3)])?;
    with(rt, "deck M, a symbol less", &[(1, 4)])?;
    with(rt, "deck M, clause offset 13", &[(4, 13)])
}

pub fn words(rt: &impl Print) -> io::Result<()> {
    with(rt, "first word 511", &[(12, 511), (13, 0)])?;
    with(rt, "first word 513", &[(12, 513), (13, 0)])?;
    with(rt, "a value at a functor", &[(9, 1)])?;
    with(rt, "a value at a predicate", &[(17, 7)])?;
    with(rt, "a number as head", &[(20, 2)])?;
    with(rt, "a number in place of a", &[(8, 512)])?;
    show::opened(
        rt,
        "a number in format 1",
        &[1, 2, 8, 1, 10, 2, 11, 13, 512, 257, 0, 1, 0],
    )
}

pub fn equal_values(rt: &impl Print) -> io::Result<()> {
    with(rt, "28 and 28", &[(13, 28)])?;
    with(rt, "29 and 28", &[(13, 29)])?;
    with(rt, "0 and -1", &[(13, 0), (15, 65535)])?;
    with(rt, "-1 and -1", &[(13, 65535), (15, 65535)])?;
    with(rt, "28, 29 and 28", &[(8, 512), (9, 28), (13, 29)])?;
    with(rt, "92, 29 and 28", &[(8, 512), (9, 92), (13, 29)])?;
    with(rt, "28, -35 and 28", &[(8, 512), (9, 28)])
}

// The value of each symbol of deck M, and of one past them.
pub fn values(rt: &impl Print) -> io::Result<()> {
    let deck = deck_m();
    let mut table = [0; 4096];
    let Ok(opened) = Opened::new(&deck, &mut table) else {
        return show::line(rt, "values", 0);
    };
    for f in 0..6 {
        match opened.parts().value(f) {
            Some(word) => show::line(rt, "value", word)?,
            None => show::line(rt, "no value", f)?,
        }
    }
    Ok(())
}
