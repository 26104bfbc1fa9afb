// The program over a column's mean as a function on bytes: from the bytes of its deck file, if there is one, and of its input, a column's number and a
// query, to the bytes that are printed (document 02, U10).
#![tactic(auto)]

ghost use Rattle.std.specs.Prelude.{◌≡◌, drop, get_or};
ghost use Rattle.rules.specs.CarryProgram.{number_from};
ghost use Rattle.listing.specs.Printed.{file_of, Printed};
ghost use Rattle.program_parts.specs.Answers.{Prints};
ghost use Rattle.mean_program.specs.MeanProgram.{words_mean, mean_run, mean_prints, mean_program};
ghost use Rattle.mean_program.specs.Told.{TellsMeanRun};

use deck::Refusal;
use deck::opened::Opened;
use means::Mean;
use program::BUDGET;
use program::bars::nothing_barred;
use program::input::{opened_deck, query_words};
use program::lists::Lists;
use program_parts::or_refusal;
use report::Report;
use resolvents::fresh::variables;

mod line;

// A run that was not refused, and the mean of the column.
#[derive(Clone, Copy)]
pub struct Told {
    pub report: Report,
    pub mean: Mean,
}

// What the program prints, at the start of `out`, whose other bytes stay; the result is how many bytes.
// A number beside the room (c), as in the other programs on bytes.
pub fn mean_printed(deck: Option<&[u8]>, input: &[u8], out: &mut [u8; 64]) -> usize
    ensures { Printed (mean_program (file_of deck.entry) input.now) out.old result out.new }
{
    let printed = asked(deck, input, out);
    or_refusal(printed, out)
}

// The line, or why there is none.
fn asked(deck: Option<&[u8]>, input: &[u8], out: &mut [u8; 64]) -> Result<usize, Refusal>
    ensures { Prints mean_prints (mean_run (file_of deck.entry) input.now) out.old result out.new }
{
    let mut deck_room = [0u16; 16384];
    let mut query_room = [0u16; 500];
    let deck = opened_deck(deck, &mut deck_room)?;
    let query = query_words(behind(input), &mut query_room)?;
    let told = find_mean(deck, query, place(input))?;
    Ok(line::put_line(out, told))
}

// The byte at a place, or 0 where there is none.
fn byte(input: &[u8], at: usize) -> u64
    ensures { result ≡ get_or input.now at 0 }
{
    if input.len() <= at {
        return 0;
    }
    u64::from(input[at])
}

// The column's number.
fn place(input: &[u8]) -> u64
    ensures { result ≡ number_from 2 input.now }
{
    byte(input, 0) + 256 * byte(input, 1)
}

// The query's bytes behind it.
fn behind(input: &[u8]) -> &[u8]
    ensures { result.now ≡ drop 2 input.now }
{
    let from = input.len().min(2);
    &input[from..]
}

// The program's run from the words of both inputs on, and the mean of the column of its answers.
fn find_mean(deck: &[u16], query: &[u16], place: u64) -> Result<Told, Refusal>
    ensures { TellsMeanRun (words_mean place deck.now query.now) result }
{
    let mut table = [0; 4096];
    let opened = Opened::new(deck, &mut table)?;
    let zeros = [0; 4096];
    let mut lists = Lists::new();
    // `as`, since `u64` has no `From` of `usize`.
    let terms = variables(query) as u64;
    let report = evaluation::run(
        deck,
        query,
        nothing_barred(&opened, &zeros),
        BUDGET,
        &mut lists.answers,
        &mut lists.store,
        &mut lists.scratch,
    )?;
    let mean = column::column(deck, &lists.answers, report.answers, terms, place)?;
    Ok(Told { report, mean })
}
