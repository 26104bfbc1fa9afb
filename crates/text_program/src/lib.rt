// The programs over texts as functions on bytes: from the bytes of their input to the bytes that are printed (document 02, U1).
#![tactic(auto)]

ghost use Rattle.text_rules.specs.TextProgram.{read_program, write_run, write_prints, write_program};
ghost use Rattle.listing.specs.Printed.{file_of, Printed};
ghost use Rattle.program_parts.specs.Answers.{Prints};

use deck::Refusal;
use program_parts::{deck_words, or_refusal, put_line};
use reading::ReadError;

mod output;

// What is printed of a text, at the start of `out`, whose other bytes stay; the result is how many bytes. A deck has at most 16,384 words.
// A number beside the room (c): tried as a `&'a [u8]` of it with `follows_so`; the check wants `printed_spec` by hand, and a caller's `c.out-1.given` stays open.
pub fn read_printed(text: &[u8], out: &mut [u8; 32768]) -> usize
    ensures { Printed (read_program text.now) out.old result out.new }
{
    if 262144 < text.len() {
        return put_line(out, Refusal::Room);
    }
    let mut words = [0u16; 16384];
    match reading::read_text(text, &mut words) {
        Ok(n) => output::put_deck(out, &words[..n]),
        Err(ReadError::Unreadable(place)) => output::put_place(out, place),
        Err(ReadError::Refused(why)) => put_line(out, why),
    }
}

// The same of a deck file, if there is one. A text has at most 262,144 bytes.
pub fn write_printed(file: Option<&[u8]>, out: &mut [u8; 262144]) -> usize
    ensures { Printed (write_program (file_of file.entry)) out.old result out.new }
{
    let printed = written(file, out);
    or_refusal(printed, out)
}

// The text, or why there is none.
fn written(file: Option<&[u8]>, out: &mut [u8; 262144]) -> Result<usize, Refusal>
    ensures { Prints write_prints (write_run (file_of file.entry)) out.old result out.new }
{
    let mut room = [0u16; 16384];
    let words = deck_words(file, &mut room)?;
    writing::write_text(words, out)
}
