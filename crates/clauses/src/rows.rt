// The rows of the clauses about one predicate: one bit a clause, from the lowest bit up. A block of 16 words, one a row, has the bits of 64 clauses.
ghost use Rattle.std.specs.Prelude.{◌≡◌, ℕ, ◌+◌, ◌*◌, ◌/◌, ◌≤◌, ◌<◌, ◌^◌, List, length, replicate, slice_index};
ghost use Rattle.rules.specs.Syntax.{Clause, Deck};
ghost use Rattle.rules.specs.Terms.{count};
ghost use Rattle.rules.specs.Refusals.{accepted};
ghost use Rattle.rules.specs.Decks.{open_deck};
ghost use Rattle.rules.specs.Resolution.{clauses_about, row_clauses};
ghost use Rattle.clauses.specs.Groups.{Numbers};
ghost use Rattle.clauses.specs.Rows.{row_words, Unset, Argued, Marked, RowsOf, NextOne};

use crate::clause_cells;
use deck::opened::Opened;

// Cells from this one on are variables.
const VARIABLE: u16 = 32768;

// The words that the rows of n clauses take.
pub fn words(n: usize) -> usize
    requires { n ≤ 8192 }
    ensures { result ≡ row_words n }
{
    16 * n.div_ceil(64)
}

// Puts the clauses about p into their rows.
pub fn fill(deck: &Opened, p: usize, numbers: &[u16], rows: &mut [u64])
    requires numbers { (d : Deck) → open_deck deck.now.words.now ≡ accepted d → Numbers p d.clauses numbers.now }
    requires argued { (d : Deck) → open_deck deck.now.words.now ≡ accepted d → Argued p d.clauses }
    requires room { length rows.old ≡ row_words (length numbers.now) }
    requires unset { Unset rows.old }
    ensures { (d : Deck) → open_deck deck.now.words.now ≡ accepted d → RowsOf (clauses_about p d.clauses) rows.new }
{
    for (k, i) in numbers.iter().enumerate() {
        let cell = clause_cells(deck, usize::from(*i))[1];
        let from = 16 * (k / 64);
        mark(&mut rows[from..from + 16], k % 64, cell);
    }
}

// A clause whose head starts with this cell has bit j in the row of its functor; with a variable it has it in each row.
fn mark(block: &mut [u64], j: usize, cell: u16)
    requires rows { length block.old ≡ 16 }
    requires j_in { j < 64 }
    ensures { Marked block.old j cell block.new }
{
    let bit = 1u64 << j;
    if cell < VARIABLE {
        block[usize::from(cell % 16)] |= bit;
        return;
    }
    for word in block {
        *word |= bit;
    }
}

// One row of them.
#[derive(Clone, Copy)]
pub struct Row<'a> {
    pub words: &'a [u64],
    pub number: usize,
    ghost number_in: { number < 16 },
}

impl Row<'_> {
    // The place of the first one from place k on; n or more where there is none before place n.
    pub fn next_one(&self, k: usize, n: usize) -> usize
        requires room { length self.now.words.now ≡ row_words n }
        requires few { n ≤ 8192 }
        requires k_in { k ≤ 8192 }
        ensures { NextOne self.now.words.now self.now.number n k result }
    {
        let mut at = k;
        while at < n {
            let rest = self.words[16 * (at / 64) + self.number] >> (at % 64);
            if rest != 0 {
                return at + rest.trailing_zeros() as usize;
            }
            at += 64 - at % 64;
        }
        at
    }

    // How many ones there are in the row.
    pub fn ones(&self) -> usize
        requires { length self.now.words.now ≤ 4096 }
        ensures { (cs : List Clause) → RowsOf cs self.now.words.now → result ≡ length (row_clauses self.now.number cs) }
    {
        let mut ones = 0;
        for w in 0..self.words.len() / 16 {
            ones += self.words[16 * w + self.number].count_ones() as usize;
        }
        ones
    }
}
