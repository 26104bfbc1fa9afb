// A member's list of bars: one word a symbol.
ghost use Rattle.std.specs.Prelude.{◌≡◌};
ghost use Rattle.deck.specs.Kinds.{symbol_of, symbols_of};
ghost use Rattle.rules.specs.Rights.{bar_fits, bars_fit, barred};

// Whether a word may stand for a symbol: 1 only for a predicate.
fn bar_fits(symbol: u16, bar: u16) -> bool
    ensures { result ≡ bar_fits (symbol_of symbol) bar }
{
    match bar {
        0 => true,
        1 => 256 <= symbol,
        _ => false,
    }
}

// Whether the list has a word for each symbol, which may stand for it.
pub fn fit(symbols: &[u16], bars: &[u16]) -> bool
    ensures { result ≡ bars_fit (symbols_of symbols.now) bars.now }
{
    if symbols.len() != bars.len() {
        return false;
    }
    for (p, symbol) in symbols.iter().enumerate() {
        if !bar_fits(*symbol, bars[p]) {
            return false;
        }
    }
    true
}

// Whether the list bars p.
pub fn barred(bars: &[u16], p: u16) -> bool
    ensures { result ≡ barred bars.now p }
{
    bars.get(usize::from(p)).is_some_and(|bar| *bar == 1)
}
