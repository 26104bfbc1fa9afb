// A file of cases, read piece by piece.
#![tactic(auto)]

ghost use Rattle.std.specs.Prelude.{◌≡◌, ◌≤◌, ℕ, List, length, IsOk};
ghost use Rattle.case_file.specs.Cases.{Through, TakesNumber, TakesPiece};

use bytes_io::{count, taken};
use std::io;
use std::io::Read;

// What is left of the file. Its numbers have so many bytes, low byte first.
#[derive(Drop)]
pub struct CaseFile<F> {
    pub file: F,
    pub width: usize,
    ghost narrow: { width ≤ 4 },
}

impl<F: Read> CaseFile<F> {
    pub fn new(file: F, width: usize) -> CaseFile<F>
        requires { width ≤ 4 }
        ensures file { result.file ≡ file }
        ensures width { result.width ≡ width }
    {
        CaseFile { file, width }
    }

    // The next number; a byte that is missing is 0.
    pub fn number(&mut self) -> usize
        ensures taken { TakesNumber F.remaining self.old.width self.old.file self.new.file }
        ensures width { self.new.width ≡ self.old.width }
    {
        let mut bytes = [0u8; 8];
        taken(&mut self.file, &mut bytes[..self.width]);
        usize::from_le_bytes(bytes)
    }

    // The bytes of the next piece, after their number: as many as there is room for.
    pub fn given<'a>(&mut self, room: &'a mut [u8]) -> &'a [u8]
        ensures in_bounds { length result.now ≤ length room.old }
        ensures taken { TakesPiece F.remaining self.old.width self.old.file self.new.file result.now }
        ensures width { self.new.width ≡ self.old.width }
    {
        let length = self.number();
        let n = count(length, room);
        taken(&mut self.file, &mut room[..n])
    }

    // An input: its length, and then the piece that it begins with; the bytes after the piece are those of the room.
    pub fn input<'a>(&mut self, room: &'a mut [u8]) -> &'a [u8]
        ensures in_bounds { length result.now ≤ length room.old }
        ensures taken { (m : F) × (piece : List ℕ) × TakesNumber F.remaining self.old.width self.old.file m × TakesPiece F.remaining self.old.width m self.new.file piece }
        ensures width { self.new.width ≡ self.old.width }
    {
        let length = self.number();
        self.given(room);
        let n = count(length, room);
        &room[..n]
    }

    // Prints the line that names a case, of as many bytes as the number before it says; those that the file has not are 0.
    pub fn title(&mut self, rt: &impl Print) -> io::Result<()>
        ensures taken { (line : List ℕ) × (length line ≤ 100) × TakesPiece F.remaining self.old.width self.old.file self.new.file line }
        ensures width { self.new.width ≡ self.old.width }
    {
        let mut room = [0u8; 100];
        let size = count(self.number(), &room);
        taken(&mut self.file, &mut room[..size]);
        rt.write_all(&room[..size])
    }

    // Does the same with each case. The file begins with their number.
    pub fn each<C: Fn(&mut CaseFile<F>) -> io::Result<()>>(&mut self, case: C) -> io::Result<()>
        requires { C.IsAlwaysCallable case }
        ensures { IsOk result → (first : CaseFile F) × TakesNumber F.remaining self.old.width self.old.file first.file × ((n : ℕ) × Through (λ s r t. C.post case s r t) n first self.new) }
    {
        for _ in 0..self.number() {
            case(self)?;
        }
        Ok(())
    }
}
