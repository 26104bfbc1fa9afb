// Prints the cases of the file `cases`: for each the line that names it, and then the program's listing of its two inputs.
//
// The file has the number of cases, and then for each case: the length of its line, and the line; 1 if there is a deck file, and else 0;
// the deck; the query. The deck and the query are each: the length in bytes, how many of the bytes are given, and these; the others are 0.
// Numbers are two bytes, low byte first.
#![tactic(auto)]

use case_file::CaseFile;
use std::io::Read;
use std::{fs, io};

// Without the file there are no cases.
fn main(rt: HostRuntime) -> io::Result<()> {
    match fs::open(&rt, "cases") {
        Ok(file) => CaseFile::new(file, 2).each(|cases| case(&rt, cases)),
        Err(_) => Ok(()),
    }
}

fn case<F: Read>(rt: &impl Print, cases: &mut CaseFile<F>) -> io::Result<()> {
    let mut deck_room = [0u8; 32772];
    let mut query_room = [0u8; 1004];
    let mut out = [0u8; 65605];
    cases.title(rt)?;
    let present = cases.number() != 0;
    let deck = cases.input(&mut deck_room);
    let query = cases.input(&mut query_room);
    let n = program::printed(present.then_some(deck), query, &mut out);
    rt.write_all(&out[..n])
}
