// The mean of whole numbers with a sign (document 02, U10): of words in two's complement, one after another, their sum, and what it comes to by their count.
#![tactic(auto)]

ghost use Rattle.std.specs.Prelude.{◌≡◌, ◌≤◌};
ghost use Rattle.rules.specs.Column.{value_of, mean};
ghost use Rattle.means.specs.Means.{as_mean};

// The sum of a column, and its mean: the whole part, rounded down, and the remainder, from 0 up to the count less one.
#[derive(Clone, Copy, Debug, PartialEq, Eq)]
pub struct Mean {
    pub sum: i64,
    pub whole: i64,
    pub remainder: u64,
}

impl Mean {
    // Of so many values.
    pub fn new(sum: i64, count: u16) -> Mean
        requires { 1 ≤ count }
        ensures { as_mean result ≡ mean count sum }
    {
        let number = i64::from(count);
        Mean {
            sum,
            whole: sum.div_euclid(number),
            remainder: sum.rem_euclid(number).unsigned_abs(),
        }
    }
}

// The value of a word.
pub fn value(word: u16) -> i64
    ensures { result ≡ value_of word }
{
    i64::from(word.cast_signed())
}
