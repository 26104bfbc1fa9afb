// The program: reads a text from standard input, and prints the words of its deck, low byte first, or a refusal.
#![tactic(auto)]

ghost use Rattle.std.specs.Prelude.{ℕ, List, OnOk};
ghost use Rattle.std.specs.Io.KnownBytes.{Appends, Consumes};
ghost use Rattle.text_rules.specs.TextProgram.{read_program};

use bytes_io::taken;
use std::io;
use std::io::{Read, Write};

fn main(rt: HostRuntime) -> io::Result<()> {
    answer(&mut rt.stdin(), &mut io::writer(&rt))
}

// Reads a text from the input, and writes what is printed of it.
// No more is read than it takes to tell that there is too much.
// No function for all programs takes the rule's function: this contract would stay here, and that function would need one as long, over any rule.
fn answer<T: Read, W: Write>(input: &mut T, to: &mut W) -> io::Result<()>
    ensures { OnOk result ((text : List ℕ)
        × Consumes (T.remaining input.old) (T.remaining input.new) text
        × Appends (W.contents to.old) (W.contents to.new) (read_program text)) }
{
    let mut room = [0u8; 262145];
    let mut out = [0u8; 32768];
    let text = taken(input, &mut room);
    let n = text_program::read_printed(text, &mut out);
    to.write_all(&out[..n])
}
