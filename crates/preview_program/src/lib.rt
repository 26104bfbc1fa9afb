// The program that tries a clause, as a function on bytes (document 02, U11), for a member (U9): from the bytes of its inputs to the bytes that are printed.
#![tactic(auto)]

ghost use Rattle.std.specs.Prelude.{◌≡◌, take};
ghost use Rattle.rules.specs.Listing.{listing};
ghost use Rattle.rules.specs.PreviewProgram.{clause_from, preview_words, preview_run, preview_program};
ghost use Rattle.listing.specs.Printed.{file_of, Printed};
ghost use Rattle.program_parts.specs.Answers.{Prints};

use carry_program::bars::bars_of;
use deck::Refusal;
use deck::opened::Opened;
use program::BUDGET;
use program::input::{opened_deck, query_words};
use program::lists::Lists;
use program_parts::{are_words, or_refusal, put_run, words_of};

// What the program prints, at the start of `out`, whose other bytes stay; the result is how many bytes. A listing has at most 69 bytes in its first two lines,
// and 8 for each word of the answer list.
pub fn printed(
    deck: Option<&[u8]>,
    clause: Option<&[u8]>,
    query: &[u8],
    bars: Option<&[u8]>,
    out: &mut [u8; 65605],
) -> usize
    ensures { Printed (preview_program (file_of deck.entry) (file_of clause.entry) query.now (file_of bars.entry)) out.old result out.new }
{
    let printed = asked(deck, clause, query, bars, out);
    or_refusal(printed, out)
}

// The listing, or why there is none.
fn asked(
    deck: Option<&[u8]>,
    clause: Option<&[u8]>,
    query: &[u8],
    bars: Option<&[u8]>,
    out: &mut [u8; 65605],
) -> Result<usize, Refusal>
    ensures { Prints listing (preview_run (file_of deck.entry) (file_of clause.entry) query.now (file_of bars.entry)) out.old result out.new }
{
    let mut deck_room = [0u16; 16384];
    let mut clause_room = [0u16; 16384];
    let mut query_room = [0u16; 500];
    let mut table = [0; 4096];
    let deck = opened_deck(deck, &mut deck_room)?;
    let clause = clause_words(clause, &mut clause_room);
    lengthening::check(deck, clause, &mut table)?;
    let query = query_words(query, &mut query_room)?;
    listed(deck, clause, query, bars, out)
}

// As many bytes as a clause may have cells for: with more the copy is too long all the same.
fn first_cells(bytes: &[u8]) -> &[u8]
    ensures { result.now ≡ take 32768 bytes.now }
{
    let most = bytes.len().min(32768);
    &bytes[..most]
}

// A file that is not one of words comes to no cells.
fn clause_words<'a>(file: Option<&[u8]>, words: &'a mut [u16; 16384]) -> &'a [u16]
    ensures { result.now ≡ clause_from (file_of file.entry) }
{
    let Some(bytes) = file else {
        return &[];
    };
    let first = first_cells(bytes);
    if !are_words(first, 0, 32768) {
        return &[];
    }
    words_of(first, words)
}

// The same from the words of the inputs on.
fn listed(
    deck: &[u16],
    clause: &[u16],
    query: &[u16],
    bars: Option<&[u8]>,
    out: &mut [u8; 65605],
) -> Result<usize, Refusal>
    ensures { Prints listing (preview_words deck.now clause.now query.now (file_of bars.entry)) out.old result out.new }
{
    let mut table = [0; 4096];
    let opened = Opened::new(deck, &mut table)?;
    let mut room = [0; 4096];
    let bars = bars_of(&opened, bars, &mut room);
    let mut lists = Lists::new();
    let report = evaluation::preview::preview(
        deck,
        clause,
        query,
        bars,
        BUDGET,
        &mut lists.answers,
        &mut lists.store,
        &mut lists.scratch,
    )?;
    Ok(put_run(report, &lists.answers, opened.symbols(), out))
}
