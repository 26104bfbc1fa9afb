// Prints the cases of the file `cases`: for each the line that names it, and then what the program over texts prints of its input.
//
// The file has the number of cases, and then for each case: the length of its line, and the line; 0 for a text to be read, 1 for a deck file to be
// written as text, 2 for a deck file that is missing; the input: the length in bytes, how many of the bytes are given, and these; the others are spaces.
// Numbers are three bytes, low byte first.
#![tactic(auto)]

use case_file::CaseFile;
use std::io::Read;
use std::{fs, io};

// Without the file there are no cases.
fn main(rt: HostRuntime) -> io::Result<()> {
    match fs::open(&rt, "cases") {
        Ok(file) => CaseFile::new(file, 3).each(|cases| case(&rt, cases)),
        Err(_) => Ok(()),
    }
}

fn case<F: Read>(rt: &impl Print, cases: &mut CaseFile<F>) -> io::Result<()> {
    let mut room = [32u8; 262146];
    cases.title(rt)?;
    let asked = cases.number();
    let bytes = cases.input(&mut room);
    match asked {
        0 => read(rt, bytes),
        1 => write(rt, Some(bytes)),
        _ => write(rt, None),
    }
}

fn read(rt: &impl Print, text: &[u8]) -> io::Result<()> {
    let mut out = [0u8; 32768];
    let n = text_program::read_printed(text, &mut out);
    rt.write_all(&out[..n])
}

fn write(rt: &impl Print, deck: Option<&[u8]>) -> io::Result<()> {
    let mut out = [0u8; 262144];
    let n = text_program::write_printed(deck, &mut out);
    rt.write_all(&out[..n])
}
