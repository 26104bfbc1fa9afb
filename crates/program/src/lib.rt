// The program as a function on bytes: from the bytes of the deck file, if there is one, and of the query to the bytes that are printed.
#![tactic(auto)]

ghost use Rattle.rules.specs.Listing.{listing};
ghost use Rattle.rules.specs.Program.{program, program_run};
ghost use Rattle.listing.specs.Printed.{file_of, Printed};
ghost use Rattle.program_parts.specs.Answers.{Prints};
ghost use Rattle.program.specs.Runs.{words_run};

use bars::nothing_barred;
use deck::Refusal;
use deck::opened::Opened;
use input::{opened_deck, query_words};
use lists::Lists;
use program_parts::{or_refusal, put_run};

pub mod bars;
pub mod input;
pub mod lists;

// The budget where none is given.
pub const BUDGET: u32 = 100000;

// What the program prints, at the start of `out`, whose other bytes stay; the result is how many bytes.
// The deck is refused before anything is said of the query. A listing has at most 69 bytes in its first two lines, and 8 for each word of the answer list.
// A number beside the room (c): tried as a `&'a [u8]` of it with `follows_so`; the check wants `printed_spec` by hand, and a caller's `c.out-1.given` stays open.
pub fn printed(deck: Option<&[u8]>, query: &[u8], out: &mut [u8; 65605]) -> usize
    ensures { Printed (program (file_of deck.entry) query.now) out.old result out.new }
{
    let printed = asked(deck, query, out);
    or_refusal(printed, out)
}

// The listing, or why there is none.
fn asked(deck: Option<&[u8]>, query: &[u8], out: &mut [u8; 65605]) -> Result<usize, Refusal>
    ensures { Prints listing (program_run (file_of deck.entry) query.now) out.old result out.new }
{
    let mut deck_room = [0u16; 16384];
    let mut query_room = [0u16; 500];
    let deck = opened_deck(deck, &mut deck_room)?;
    let query = query_words(query, &mut query_room)?;
    listed(deck, query, out)
}

// The same from the words of both inputs on.
fn listed(deck: &[u16], query: &[u16], out: &mut [u8; 65605]) -> Result<usize, Refusal>
    ensures { Prints listing (words_run deck.now query.now) out.old result out.new }
{
    let mut table = [0; 4096];
    let opened = Opened::new(deck, &mut table)?;
    let zeros = [0; 4096];
    let mut lists = Lists::new();
    let report = evaluation::run(
        deck,
        query,
        nothing_barred(&opened, &zeros),
        BUDGET,
        &mut lists.answers,
        &mut lists.store,
        &mut lists.scratch,
    )?;
    Ok(put_run(report, &lists.answers, opened.symbols(), out))
}
