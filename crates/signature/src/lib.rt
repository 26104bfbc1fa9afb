// What the symbol words of a deck say of its symbols: each is an arity, plus 256 for a predicate.
#![tactic(auto)]

ghost use Rattle.std.specs.Prelude.{◌<◌, ◌≡◌};
ghost use Rattle.signature.specs.Symbols.{symbol_count, arity_at, is_predicate};

// The number of symbols.
pub fn count(symbols: &[u16]) -> usize
    ensures { result ≡ symbol_count symbols.now }
{
    symbols.len()
}

// The arity of symbol n.
pub fn arity(symbols: &[u16], n: usize) -> usize
    requires { n < symbol_count symbols.now }
    ensures { result ≡ arity_at symbols.now n }
{
    usize::from(symbols[n]) % 256
}

// Whether symbol n is a predicate.
pub fn is_predicate(symbols: &[u16], n: usize) -> bool
    requires { n < symbol_count symbols.now }
    ensures { result ≡ is_predicate symbols.now n }
{
    256 <= symbols[n]
}
