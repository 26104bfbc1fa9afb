// The symbols of a deck of format 2, two words each (document 02, U10): the table of their kinds, and what refusal 2 asks of second words.
ghost use Rattle.std.specs.Prelude.{ℕ, ◌≤◌, ◌≡◌, List, length};
ghost use Rattle.std.proofs.Math.Option.{Option, some};
ghost use Rattle.rules.specs.Syntax.{format2};
ghost use Rattle.rules.specs.Decks.{kind_word, kind_words, read_values, keep_distinct};
ghost use Rattle.rules.specs.Column.{number_word};
ghost use Rattle.deck.specs.Answers.{found};
ghost use Rattle.deck.specs.Pairs.{Turned, known_word};

// The first word of a symbol, or that of a functor of arity 0 for a number.
fn kind(word: u16) -> u16
    ensures { result ≡ kind_word word }
{
    if word == 512 { 0 } else { word }
}

// One word a symbol, put in the lent table.
pub fn kinds<'a>(pairs: &[u16], table: &'a mut [u16; 4096]) -> &'a [u16]
    requires { length pairs.now ≤ 8192 }
    ensures { result.now ≡ kind_words pairs.now }
{
    let count = pairs.len() / 2;
    for i in 0..count {
        table[i] = kind(pairs[2 * i]);
    }
    &table[..count]
}

// The word of the value of symbol f, where it is a number.
pub fn value(pairs: &[u16], f: usize) -> Option<u16>
    ensures { (vs : List (Option ℕ)) → read_values pairs.now ≡ some vs → result ≡ known_word (number_word (format2 vs) f) }
{
    if pairs.len() / 2 <= f {
        return None;
    }
    if pairs[2 * f] != 512 {
        return None;
    }
    Some(pairs[2 * f + 1])
}

// Whether each second word is 0, or a number's value that no number before it has. One pass, with a bit for each value.
pub fn fit(pairs: &[u16]) -> bool
    ensures { result ≡ found (keep_distinct (read_values pairs.now)) }
{
    let mut seen = [0; 1024];
    let mut rest = pairs;
    while let [first, second, others @ ..] = rest {
        if !pair_fits(&mut seen, *first, *second) {
            return false;
        }
        rest = others;
    }
    rest.is_empty()
}

// One symbol, and its bit if it is a number.
fn pair_fits(seen: &mut [u64; 1024], first: u16, second: u16) -> bool
    ensures { Turned seen.old first second result seen.new }
{
    if first != 512 {
        return second == 0;
    }
    let word = usize::from(second / 64);
    let place = second % 64;
    if (seen[word] >> place) % 2 == 1 {
        return false;
    }
    seen[word] |= 1 << place;
    true
}
