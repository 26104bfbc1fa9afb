// The program over levels as a function on bytes: from the bytes of its deck file to the bytes that are printed (document 02, U8).
#![tactic(auto)]

ghost use Rattle.std.specs.Prelude.{◌≡◌, ◌++◌, length};
ghost use Rattle.rules.specs.Program.{bytes_from};
ghost use Rattle.listing.specs.Printed.{file_of, Printed};
ghost use Rattle.ranks_program.specs.LevelsProgram.{LevelsPrinted, LevelsTold, front};

use deck::Refusal;
use listing::output::Output;
use program_parts::{deck_words, or_refusal};

// What is printed of a deck file, if there is one, at the start of `out`, whose other bytes stay; the result is how many bytes.
// A number beside the room (c), as in the other programs on bytes.
pub fn levels_printed(file: Option<&[u8]>, out: &mut [u8; 8196]) -> usize
    ensures { LevelsPrinted (file_of file.entry) out.old result out.new }
{
    let printed = told(file, out);
    or_refusal(printed, out)
}

// The words, or why there are none.
fn told(file: Option<&[u8]>, out: &mut [u8; 8196]) -> Result<usize, Refusal>
    ensures { LevelsTold (file_of file.entry) out.old result out.new }
{
    let mut room = [0u16; 16384];
    let mut numbers = [0u16; 4096];
    let words = deck_words(file, &mut room)?;
    let named = ranks::levels(words, &mut numbers)?;
    Ok(put_levels(out, named, &numbers))
}

// The words before the numbers.
fn front(named: Option<u16>) -> [u16; 2]
    ensures { result ≡ front named }
{
    match named {
        Some(p) => [1, p],
        None => [0, 0],
    }
}

// Those, and the numbers.
fn put_levels(bytes: &mut [u8], named: Option<u16>, numbers: &[u16]) -> usize
    requires { (length numbers.now ≡ 4096) × (length bytes.old ≡ 8196) }
    ensures { Printed (bytes_from (front named ++ numbers.now)) bytes.old result bytes.new }
{
    let mut out = Output::new(bytes);
    out.put_words(&front(named));
    out.put_words(numbers);
    out.at
}
