// The arguments in brackets, of 4,096 pairs at a time, whatever their nesting.
ghost use Rattle.std.specs.Prelude.{ℕ, ◌≤◌, ◌<◌, length, drop, get_or};
ghost use Rattle.text_rules.specs.TextTokens.{tokens};
ghost use Rattle.uses.specs.Pairs.{Given};

use arrayvec::ArrayVec;

// The arguments begun in each pair that is met, in the order of opening, up to 65,535; the numbers of the open pairs in a row, one inside
// the other; and how many other brackets are open in the last of these. `given` is no `ArrayVec`: it is returned whole, with zeros after the pairs met.
#[derive(Drop)]
pub struct Counting {
    pub given: [u16; 4096],
    pub met: usize,
    pub row: ArrayVec<u16, 4096>,
    pub inner: usize,
    pub ghost few: { length row.items ≤ met },
    pub ghost most: { met ≤ 4096 },
    pub ghost owner: { (j : ℕ) → j < length row.items → get_or row.items j 0 < met },
}

impl Counting {
    ghost use Rattle.std.specs.Prelude.{◌≡◌};
    ghost use Rattle.text_rules.specs.TextTokens.{opening, closing, comma};
    ghost use Rattle.uses.specs.Counting.{Room, Steps, NothingMet};
    ghost use Rattle.uses.specs.Pairs.{mark_of};

    fn new() -> Self
        ensures { NothingMet result }
    {
        Counting {
            given: [0; 4096],
            met: 0,
            row: ArrayVec::new(),
            inner: 0,
        }
    }

    // At an opening bracket: its pair joins the row, with its first argument begun. The cast is proved to fit; `try_from` would have an error that cannot come.
    // `Room` is asked for at each token, and is no ghost field: the number of open brackets is bounded by the text that is left, which is not here.
    fn opened(&mut self)
        requires { Room self.old }
        ensures { Steps opening self.old self.new }
    {
        if self.met == 4096 {
            self.inner += 1;
            return;
        }
        self.row.push(self.met as u16);
        self.given[self.met] = 1;
        self.met += 1;
    }

    // At a closing bracket: the last pair of the row is known.
    fn closed(&mut self)
        ensures { Steps closing self.old self.new }
    {
        if self.inner == 0 {
            self.row.pop();
        } else {
            self.inner -= 1;
        }
    }

    // At a comma: the last pair of the row has one argument more.
    fn separated(&mut self)
        requires { Room self.old }
        ensures { Steps comma self.old self.new }
    {
        if self.inner != 0 {
            return;
        }
        if let Some(number) = self.row.last().copied() {
            let number = usize::from(number);
            self.given[number] = self.given[number].saturating_add(1);
        }
    }

    fn step(&mut self, byte: u8)
        requires { Room self.old }
        ensures { Steps (mark_of byte) self.old self.new }
    {
        match byte {
            b'(' => self.opened(),
            b')' => self.closed(),
            b',' => self.separated(),
            _ => {}
        }
    }
}

// The arguments in the first 4,096 pairs from `from` on. At the end of the text all pairs are known.
pub fn count(text: &[u8], from: usize) -> [u16; 4096]
    requires { from ≤ length text.now }
    ensures { Given (tokens 0 (drop from text.now)) result }
{
    let mut counting = Counting::new();
    for byte in &text[from..] {
        counting.step(*byte);
        if counting.met == 4096 && counting.row.is_empty() {
            return counting.given;
        }
    }
    counting.given
}
