// Refusal 2: the symbol words.
ghost use Rattle.std.specs.Prelude.{◌≡◌};
ghost use Rattle.std.specs.List.{list_all};
ghost use Rattle.rules.specs.Decks.{read_symbol};
ghost use Rattle.deck.specs.Answers.{found};

// Whether each word is a symbol's. By `fold`, so that many are tested at a time: with `all`, drill terms in lists of 8 words over 4,000 functors
// come at 0.96 M a second, with this at 5.4; the bar is 2.0 (b).
pub fn fit(words: &[u16]) -> bool
    ensures { result ≡ list_all (λ word. found (read_symbol word)) words.now }
{
    words
        .iter()
        .fold(true, |fits, word| fits & is_symbol(*word))
}

// The arity, 0 to 15, plus 256 for a predicate.
fn is_symbol(word: u16) -> bool
    ensures { result ≡ found (read_symbol word) }
{
    matches!(word, 0..=15 | 256..=271)
}
