// Goals in the store, as mirror images at the end of the words held. The store and the number of words held stay two: a level works in a part
// of the store, so that a struct of both would be made anew for each. The first goal's length is read as `usize::from(store[held - 1])` where
// it is wanted: a function of it would take the same two values, and a clause that bounds them. `as` is proved to lose nothing in this file;
// `u16::try_from` would want an answer for what does not fit.
#![tactic(auto)]

ghost use Rattle.std.specs.Prelude.{◌≡◌, ◌+◌, ◌-◌, ◌≤◌, ◌<◌, ◌∷◌, reverse, length, take, drop, get_or};
ghost use Rattle.goals.specs.Store.{words_without};
ghost use Rattle.std.proofs.lemmas.List.Edits.{sets};

// What the first cell of a negative literal has more than that of the positive one: matching's number, on which this crate does not stand.
const NEGATIVE: u16 = 16384;

// Why a goal is parked: floundered, undecided, oversized, deep.
#[derive(Clone, Copy, Debug, PartialEq, Eq)]
pub enum Mark {
    Floundered,
    Undecided,
    Oversized,
    Deep,
}

// A goal's first word is its number of words plus its mark times this. The crate stored, which reads marks too, does not stand on this one.
pub const MARK: u16 = 4096;

// What a mark adds to a goal's word 0.
impl From<Mark> for u16 {
    ghost use Rattle.std.specs.Prelude.{◌≡◌, ◌*◌};
    ghost use Rattle.rules.specs.Goals.{mark_number};
    ghost use Rattle.goals.specs.Store.{mark_of};

    ghost from_gives = { λ mark word. word ≡ 4096 * mark_number (mark_of mark) };

    #[tactic(auto, unfolding(rules::specs::Goals::mark_number))]
    fn from(mark: Mark) -> u16 {
        match mark {
            Mark::Floundered => MARK,
            Mark::Undecided => 2 * MARK,
            Mark::Oversized => 3 * MARK,
            Mark::Deep => 4 * MARK,
        }
    }
}

// Writes the goal of these cells, `answer_cells` of them its answer terms, so that it ends where the words held end.
pub fn restore(store: &mut [u16], held: usize, cells: &[u16], answer_cells: usize)
    requires { (length cells.now + 2 ≤ held) × (held ≤ length store.old) × (length cells.now ≤ 1022) × (answer_cells ≤ 1024) }
    ensures { store.new ≡ sets store.old (held - 2 - length cells.now) (reverse ((length cells.now + 2) ∷ answer_cells ∷ cells.now)) }
{
    let n = cells.len();
    words::mirror(cells, &mut store[held - 2 - n..held - 2]);
    store[held - 2] = answer_cells as u16;
    store[held - 1] = (n + 2) as u16;
}

// Takes the words from s up to e of the cells of the goal at the end of the words held out of it. s and e stay two: a `Range` is not `Copy`, and
// the caller wants both after this.
pub fn remove(store: &mut [u16], held: usize, s: usize, e: usize)
    requires { (s ≤ e) × (e + 2 ≤ get_or store.old (held - 1) 0) × (get_or store.old (held - 1) 0 ≤ held) × (held ≤ length store.old) × (0 < held) }
    ensures { take (held - (e - s)) store.new ≡ words_without store.old held s e }
{
    let d = e - s;
    let length = usize::from(store[held - 1]);
    words::move_down(store, held - 2 - s, held, d);
    store[held - d - 1] = (length - d) as u16;
}

// Writes the new level's goal behind the words held: the negative literal made positive. The result is its number of words.
pub fn ask(store: &mut [u16], held: usize, literal: &[u16]) -> usize
    requires { (held + length literal.now + 2 ≤ length store.old) × (0 < length literal.now) × (16384 ≤ get_or literal.now 0 0) × (length literal.now ≤ 1022) }
    ensures value { result ≡ length literal.now + 2 }
    ensures store_after { store.new ≡ sets store.old held (reverse ((length literal.now + 2) ∷ 0 ∷ (get_or literal.now 0 0 - 16384) ∷ drop 1 literal.now)) }
{
    let words = literal.len() + 2;
    let end = held + words;
    restore(store, end, literal, 0);
    store[end - 3] -= NEGATIVE;
    words
}
