// The words of the symbols, which were entered with the names: one each in format 1, two in format 2.
ghost use Rattle.std.specs.Prelude.{◌≡◌, ◌+◌, ◌*◌, ◌<◌, ◌≤◌, map, length};
ghost use Rattle.rules.specs.Decks.{write_symbol, write_symbols, format_number, symbol_room};
ghost use Rattle.text_rules.specs.TextWords.{arity};
ghost use Rattle.text_rules.specs.Text.{text_format, text_declarations};
ghost use Rattle.naming.specs.Walks.{symbol_of};
ghost use Rattle.encoding.specs.Symbols.{first_word, second_word, pair_words};

use naming::declarations::Symbol;
use naming::table::DeclaredNames;

// A number's first word.
const NUMBER: u16 = 512;

fn first(symbol: Symbol) -> u16
    requires { arity (symbol_of symbol) ≤ 15 }
    ensures { result ≡ first_word symbol }
{
    match symbol {
        Symbol::Number(_) => NUMBER,
        _ => symbol.word(),
    }
}

fn put_words(names: DeclaredNames, words: &mut [u16])
    requires { length words.old ≡ length names.names.now.entries }
    ensures { words.new ≡ map (λ e. write_symbol (symbol_of e.value)) names.entry.names.now.entries }
{
    for j in 0..names.names.len() {
        words[j] = names.names.get(j).value.word();
    }
}

fn put_pairs(names: DeclaredNames, words: &mut [u16])
    requires { length words.old ≡ 2 * length names.names.now.entries }
    ensures { words.new ≡ pair_words names.entry.names.now.entries }
{
    for j in 0..names.names.len() {
        let symbol = names.names.get(j).value;
        words[2 * j] = first(symbol);
        words[2 * j + 1] = symbol.value().unwrap_or(0);
    }
}

pub fn put_symbols(names: DeclaredNames, words: &mut [u16])
    requires { length words.old ≡ symbol_room (format_number (text_format names.all.text.text.now)) (length names.names.now.entries) }
    ensures { let text = names.entry.all.text.text.now in words.new ≡ write_symbols (text_format text) (map (λ d. d.symbol) (text_declarations text)) }
{
    if names.all.text.start.numbers {
        put_pairs(names, words);
    } else {
        put_words(names, words);
    }
}
