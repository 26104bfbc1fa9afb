// Deck L of document 01 with words changed.
use crate::{build, show};
use std::io;

// End of a, end of b; a is drawn; x is a lead if x is an end and not drawn.
pub fn deck_l() -> [u16; 29] {
    [
        1, 5, 8, 4, 13, 12, 17, 29, 0, 0, 257, 257, 257, 0, 2, 4, 6, 2, 0, 2, 1, 3, 0, 4, 32768, 2,
        32768, 16387, 32768,
    ]
}

// Deck L with words replaced: the place of each, and the word.
pub fn deck_l_with(changes: &[(usize, u16)]) -> [u16; 29] {
    let mut deck = deck_l();
    for (at, word) in changes {
        build::put(&mut deck, *at, *word);
    }
    deck
}

fn with(rt: &impl Print, name: &str, changes: &[(usize, u16)]) -> io::Result<()> {
    show::opened(rt, name, &deck_l_with(changes))
}

pub fn headers(rt: &impl Print) -> io::Result<()> {
    with(rt, "deck L", &[(0, 1)])?;
    with(rt, "format 2", &[(0, 2)])?;
    with(rt, "a symbol more", &[(1, 6)])?;
    with(rt, "no symbols", &[(1, 0)])?;
    with(rt, "symbol offset 9", &[(2, 9)])?;
    with(rt, "a clause less", &[(3, 3)])?;
    with(rt, "clause offset 12", &[(4, 12)])?;
    with(rt, "a cell more", &[(5, 13)])?;
    with(rt, "term offset 18", &[(6, 18)])?;
    with(rt, "total 30", &[(7, 30)])
}

pub fn symbols_and_starts(rt: &impl Print) -> io::Result<()> {
    with(rt, "first symbol word 16", &[(8, 16)])?;
    with(rt, "last symbol word 272", &[(12, 272)])?;
    with(rt, "first start 1", &[(13, 1)])?;
    with(rt, "second start 0", &[(14, 0)])?;
    with(rt, "third start the second", &[(15, 2)])?;
    with(rt, "last start past the cells", &[(16, 12)])
}

pub fn heads(rt: &impl Print) -> io::Result<()> {
    with(rt, "functor as head", &[(17, 0)])?;
    with(rt, "negated head", &[(17, 16386)])?;
    with(rt, "variable as head", &[(17, 32768)])?;
    with(rt, "no such symbol", &[(17, 5)])
}

pub fn cells(rt: &impl Print) -> io::Result<()> {
    with(rt, "predicate as term", &[(18, 2)])?;
    with(rt, "variable 1 first", &[(24, 32769)])?;
    with(rt, "functor as literal", &[(25, 0)])?;
    with(rt, "negated functor", &[(27, 16384)])?;
    with(rt, "last cell 33792", &[(28, 33792)])?;
    with(rt, "last cell a literal", &[(28, 2)])?;
    with(rt, "last cell variable 2", &[(28, 32770)])?;
    with(rt, "last cell variable 1", &[(28, 32769)])?;
    with(rt, "last cell functor b", &[(28, 1)])
}

// The lower number is the answer, wherever the damage stands.
pub fn two_at_once(rt: &impl Print) -> io::Result<()> {
    with(rt, "total and first symbol", &[(7, 30), (8, 16)])?;
    with(rt, "last symbol and first start", &[(12, 272), (13, 1)])?;
    with(rt, "last start and first cell", &[(16, 12), (17, 5)])
}
