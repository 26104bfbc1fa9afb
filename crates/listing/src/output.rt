// The output that text is printed to.
ghost use Rattle.std.specs.Prelude.{◌≡◌, ◌≤◌, ◌*◌, length, take};
ghost use Rattle.rules.specs.Program.{bytes_from};
ghost use Rattle.listing.specs.Put.{Fits, Adds};

// The bytes lent, and the place of the next one.
// A lent slice, since nothing is allocated; std's `Cursor` and `Write` over one do not say what its bytes are in the end.
#[derive(Drop)]
pub struct Output<'a> {
    pub bytes: &'a mut [u8],
    pub at: usize,
}

impl<'a> Output<'a> {
    // Nothing is written yet.
    pub fn new(bytes: &'a mut [u8]) -> Output<'a>
        ensures bytes { result.bytes.now ≡ bytes.old }
        ensures same_reference { result.bytes.ghost_name ≡ bytes.entry.ghost_name }
        ensures start { result.at ≡ 0 }
    {
        Output { bytes, at: 0 }
    }
}

impl Output<'_> {
    // What is written so far, if the place is inside.
    pub fn written(&self) -> &[u8]
        requires { self.now.at ≤ length self.now.bytes.now }
        ensures { result.now ≡ take self.now.at self.now.bytes.now }
    {
        &self.bytes[..self.at]
    }

    #[tactic(auto, using(words::proofs::Sets::put_sets))]
    pub fn put(&mut self, text: &[u8])
        requires { Fits self.old text.now }
        ensures { Adds self.old text.now self.new }
    {
        let end = self.at + text.len();
        let bytes = &mut *self.bytes;
        bytes[self.at..end].copy_from_slice(text);
        self.at = end;
    }

    // Writes the bytes of words, low byte first, and returns their number (a): this public function promises it besides `at`.
    pub fn put_words(&mut self, words: &[u16]) -> usize
        requires { Fits self.old (bytes_from words.now) }
        ensures adds { Adds self.old (bytes_from words.now) self.new }
        ensures number { result ≡ length (bytes_from words.now) }
    {
        for word in words {
            self.put(&word.to_le_bytes());
        }
        2 * words.len()
    }
}
