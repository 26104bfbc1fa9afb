// The program that lists drill terms as a function on bytes: from the bytes of the deck file, if there is one, and of standard input to the bytes that are printed (document 02, U12).
#![tactic(auto)]

ghost use Rattle.std.specs.Prelude.{◌≤◌, length, get_or, drop, IfOk};
ghost use Rattle.rules.specs.DrillProgram.{drill_input, drill_run, drill_prints, drill_program};
ghost use Rattle.listing.specs.Printed.{file_of, Printed};
ghost use Rattle.program_parts.specs.Answers.{ComesTo, Prints};
ghost use Rattle.drill_program.specs.Runs.{words_run};

use deck::Refusal;
use listing::output::Output;
use program_parts::{are_words, deck_words, or_refusal, words_of};

mod lines;

// What is printed, at the start of `out`, whose other bytes stay; the result is how many bytes.
// As many terms are printed as fit in 4,096 words. A cell takes at most 8 bytes.
// A number beside the room (c): tried as a `&'a [u8]` of it with `follows_so`; the check wants `printed_spec` by hand, and a caller's `c.out-1.given` stays open.
pub fn drill_printed(file: Option<&[u8]>, input: &[u8], out: &mut [u8; 32768]) -> usize
    ensures { Printed (drill_program (file_of file.entry) input.now) out.old result out.new }
{
    let printed = asked(file, input, out);
    or_refusal(printed, out)
}

// The terms, or why there are none. The deck is refused before anything is said of the input.
fn asked(file: Option<&[u8]>, input: &[u8], out: &mut [u8; 32768]) -> Result<usize, Refusal>
    ensures { Prints drill_prints (drill_run (file_of file.entry) input.now) out.old result out.new }
{
    let mut deck_room = [0u16; 16384];
    let mut input_room = [0u16; 9];
    let deck = deck_words(file, &mut deck_room)?;
    deck::open(deck)?;
    let input = input_words(input, &mut input_room)?;
    listed(deck, input, out)
}

// N and the given term: else refusal 19.
fn input_words<'a>(input: &[u8], words: &'a mut [u16; 9]) -> Result<&'a [u16], Refusal>
    ensures comes { ComesTo (drill_input input.now) result }
    ensures some_word { IfOk result (λ words. 1 ≤ length words.now) }
{
    if !are_words(input, 2, 18) {
        return Err(Refusal::Drill);
    }
    Ok(words_of(input, words))
}

// The same from the words of both inputs on, of a deck that opens.
fn listed(deck: &[u16], input: &[u16], bytes: &mut [u8; 32768]) -> Result<usize, Refusal>
    requires { 1 ≤ length input.now }
    ensures { Prints drill_prints (words_run deck.now (get_or input.now 0 0) (drop 1 input.now)) bytes.old result bytes.new }
{
    // By index (d): `split_first` has a `None` that cannot come.
    let n = u32::from(input[0]);
    let mut list = [0u16; 4096];
    let count = drill::drill(deck, n, &input[1..], &mut list)?;
    let mut table = [0; 4096];
    let symbols = deck::parts::symbols(deck, &mut table);
    let mut out = Output::new(bytes);
    lines::put_lines(&mut out, &list, count, symbols);
    Ok(out.at)
}
