// The deck file, and the words of input bytes.
ghost use Rattle.std.specs.Prelude.{◌≡◌, ◌/◌, ◌≤◌, ◌&&◌, leb, length};
ghost use Rattle.rules.specs.Program.{even, words_from};
ghost use Rattle.listing.specs.Printed.{file_of, deck_fits};
ghost use Rattle.listing.specs.Put.{Put};

// The file is there, and its bytes are words, not too many.
pub fn deck_fits(file: Option<&[u8]>) -> bool
    ensures { result ≡ deck_fits (file_of file.entry) }
{
    file.is_some_and(|bytes| fits(bytes))
}

// The bytes are words, not too many.
fn fits(bytes: &[u8]) -> bool
    ensures { result ≡ (even bytes.now && leb (length bytes.now) 32768) }
{
    bytes.len().is_multiple_of(2) && bytes.len() <= 32768
}

// Stores the words of bytes, low byte first, at the start of `words`, and returns their number (a): this public function promises it.
pub fn read_words(bytes: &[u8], words: &mut [u16]) -> usize
    requires { length bytes.now / 2 ≤ length words.old }
    ensures { Put words.old 0 (words_from bytes.now) result words.new }
{
    let (pairs, _) = bytes.as_chunks::<2>();
    // By index (d): with `zip` over `iter_mut` the loop's invariant names the cells lent so far (`yielded`), and not `words`.
    for (i, pair) in pairs.iter().enumerate() {
        words[i] = u16::from_le_bytes(*pair);
    }
    pairs.len()
}
