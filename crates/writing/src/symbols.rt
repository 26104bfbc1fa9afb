// The declarations: `v2.`, and `fn s0/0.`, `pr s4/1.`, `nu s2 -35.`
ghost use Rattle.std.specs.Prelude.{◌<◌, ◌≡◌, [], ◌∷◌, length};
ghost use Rattle.rules.specs.Decks.{symbol_words};
ghost use Rattle.text_rules.specs.TextWriter.{symbol_text, value_text, number_text, format_text};
ghost use Rattle.deck.specs.Kinds.{symbol_of};
ghost use Rattle.signature.specs.Symbols.{symbol_count, symbol_word};
ghost use Rattle.listing.specs.Put.{Fits, Adds};
ghost use Rattle.writing.specs.Writes.{format_of, is_second, line_at, lines_of, declarations_of, line_text};

use deck::opened::Opened;
use listing::output::Output;

// Writes the line of format 2, and the declarations of all symbols.
pub fn put_declarations(out: &mut Output, deck: &Opened)
    requires { Fits out.old (declarations_of deck.now.words.now) }
    ensures { Adds out.old (declarations_of deck.now.words.now) out.new }
{
    put_format(out, deck);
    put_symbols(out, deck);
}

// Whether the deck is of format 2.
pub fn is_second(deck: &Opened) -> bool
    ensures { result ≡ is_second (format_of deck.now.words.now) }
{
    deck.words[0] == 2
}

fn put_format(out: &mut Output, deck: &Opened)
    requires { Fits out.old (format_text (format_of deck.now.words.now) []) }
    ensures { Adds out.old (format_text (format_of deck.now.words.now) []) out.new }
{
    if is_second(deck) {
        out.put(b"v2.\n");
    }
}

fn put_symbols(out: &mut Output, deck: &Opened)
    requires { Fits out.old (lines_of deck.now.words.now) }
    ensures { Adds out.old (lines_of deck.now.words.now) out.new }
{
    for n in 0..deck.symbols().len() {
        put_declaration(out, deck, n);
    }
}

fn put_declaration(out: &mut Output, deck: &Opened, n: usize)
    requires symbol { n < symbol_count (symbol_words deck.now.words.now) }
    requires room { Fits out.old (line_at deck.now.words.now n) }
    ensures { Adds out.old (line_at deck.now.words.now n) out.new }
{
    match deck.parts().value(n) {
        Some(word) => put_number(out, n, word),
        None => put_symbol(out, deck, n),
    }
}

fn put_symbol(out: &mut Output, deck: &Opened, n: usize)
    requires symbol { n < symbol_count (symbol_words deck.now.words.now) }
    requires room { Fits out.old (symbol_text (symbol_of (symbol_word (symbol_words deck.now.words.now) n)) n []) }
    ensures { Adds out.old (symbol_text (symbol_of (symbol_word (symbol_words deck.now.words.now) n)) n []) out.new }
{
    let symbols = deck.symbols();
    let arity = signature::arity(symbols, n);
    if signature::is_predicate(symbols, n) {
        return put_line(out, b"pr ", n, arity);
    }
    put_line(out, b"fn ", n, arity);
}

fn put_line(out: &mut Output, key: &[u8], number: usize, arity: usize)
    requires numbers { (number < 65536) × (arity < 65536) }
    requires room { Fits out.old (line_text key.now number arity) }
    ensures { Adds out.old (line_text key.now number arity) out.new }
{
    out.put(key);
    // `as`, since the clauses say that it fits: `try_from` has an error that cannot come.
    out.put_prefixed(b's', number as u32);
    out.put_prefixed(b'/', arity as u32);
    out.put(b".\n");
}

// A number by the word of its value.
fn put_number(out: &mut Output, number: usize, word: u16)
    requires small { number < 65536 }
    requires room { Fits out.old (number_text word number []) }
    ensures { Adds out.old (number_text word number []) out.new }
{
    out.put(b"nu ");
    // `as`, as in `put_line`.
    out.put_prefixed(b's', number as u32);
    put_value(out, word);
    out.put(b".\n");
}

// A space and the value.
fn put_value(out: &mut Output, word: u16)
    requires { Fits out.old (32 ∷ value_text word []) }
    ensures { Adds out.old (32 ∷ value_text word []) out.new }
{
    if word < 32768 {
        return out.put_prefixed(b' ', u32::from(word));
    }
    out.put(b" ");
    out.put_prefixed(b'-', 65536 - u32::from(word));
}
