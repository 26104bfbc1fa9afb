// What the programs as functions on bytes share: the words of their inputs, and what is printed of a run, or in place of a result.
#![tactic(auto)]

ghost use Rattle.std.specs.Prelude.{◌≡◌, ◌*◌, ◌≤◌, ◌&&◌, leb, length};
ghost use Rattle.rules.specs.Program.{even, words_from, deck_file};
ghost use Rattle.rules.specs.Listing.{listing};
ghost use Rattle.rules.specs.Evaluation.{Outcome};
ghost use Rattle.rules.specs.Refusals.{refused, accepted};
ghost use Rattle.deck.specs.Answers.{refusal_for};
ghost use Rattle.listing.specs.Printed.{file_of, Printed};
ghost use Rattle.listing.specs.Shown.{Shown};
ghost use Rattle.program_parts.specs.Answers.{ComesTo, Prints, PrintsOrRefuses};

use deck::Refusal;
use listing::input::{deck_fits, read_words};
use listing::output::Output;
use report::Report;

// The bytes are words, and so many at least and at most.
pub fn are_words(bytes: &[u8], least: usize, most: usize) -> bool
    ensures { result ≡ (even bytes.now && (leb least (length bytes.now) && leb (length bytes.now) most)) }
{
    bytes.len().is_multiple_of(2) && (least..=most).contains(&bytes.len())
}

// The words of bytes, low byte first, at the start of those lent.
pub fn words_of<'a>(bytes: &[u8], words: &'a mut [u16]) -> &'a [u16]
    requires { length bytes.now ≤ 2 * length words.old }
    ensures { result.now ≡ words_from bytes.now }
{
    let n = read_words(bytes, words);
    &words[..n]
}

// The words of the deck file, if there is one, at the start of those lent.
// By deck_fits, told of the file as the rules' test is (d): with are_words here nothing would call that public function.
pub fn deck_words<'a>(
    file: Option<&[u8]>,
    words: &'a mut [u16; 16384],
) -> Result<&'a [u16], Refusal>
    ensures { ComesTo (deck_file (file_of file.entry)) result }
{
    let bytes = file
        .filter(|bytes| deck_fits(Some(*bytes)))
        .ok_or(Refusal::Header)?;
    Ok(words_of(bytes, words))
}

// Prints the line of a refusal. Returns the number of bytes.
// The 19 bytes of room are a clause here, at `or_refusal` and in carry_program: a type round the lent room would be made for one call.
// A number beside the room (c): tried as a `&'a [u8]` of it with `follows_so`; the check wants `printed_spec` by hand, and a caller's `c.out-1.given` stays open.
pub fn put_line(out: &mut [u8], why: Refusal) -> usize
    requires { 19 ≤ length out.old }
    ensures { Printed (listing (refused (refusal_for why))) out.old result out.new }
{
    let mut out = Output::new(out);
    out.put_refusal(why);
    out.at
}

// Prints the listing of an accepted run. Returns the number of bytes.
pub fn put_run(
    report: Report,
    answers: &[u16; 8192],
    symbols: &[u16],
    out: &mut [u8; 65605],
) -> usize
    requires { (o : Outcome) × Shown o report answers.now symbols.now }
    ensures { (o : Outcome) → Shown o report answers.now symbols.now → Printed (listing (accepted o)) out.old result out.new }
{
    let mut out = Output::new(out);
    out.put_listing(report, answers, symbols);
    out.at
}

// How many bytes are printed: those of a result, which stand in the output, or those of the refusal's line.
// Not `unwrap_or_else` (d): its closure would hold `out`, and what it leaves there needs this clause again.
pub fn or_refusal(printed: Result<usize, Refusal>, out: &mut [u8]) -> usize
    requires { 19 ≤ length out.old }
    ensures { PrintsOrRefuses printed out.old result out.new }
{
    match printed {
        Ok(n) => n,
        Err(why) => put_line(out, why),
    }
}
