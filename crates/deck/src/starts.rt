// Refusal 3: the clause starts.
ghost use Rattle.std.specs.Prelude.{◌≡◌};
ghost use Rattle.rules.specs.Decks.{starts_fit, rising};

// The first start is 0, each is greater than the one before and below `total`. With no clause, `total` is 0.
#[tactic(auto, unfolding(rules::specs::Decks::starts_fit))]
pub fn fit(starts: &[u16], total: usize) -> bool
    ensures { result ≡ starts_fit total starts.now }
{
    match starts {
        [] => total == 0,
        [first, others @ ..] => *first == 0 && 0 < total && rise(*first, others, total),
    }
}

// Each start is greater than the one before, at first `before`, and below `total`.
#[tactic(auto, using(crate::proofs::RowLaws::rising_from, crate::proofs::RowLaws::rising_end))]
fn rise(before: u16, starts: &[u16], total: usize) -> bool
    ensures { result ≡ rising total before starts.now }
{
    let mut last = before;
    for start in starts {
        if *start <= last || total <= usize::from(*start) {
            return false;
        }
        last = *start;
    }
    true
}
