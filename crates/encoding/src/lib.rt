// The deck's words of a readable text (document 02, U1 and U10).
#![tactic(auto)]

ghost use Rattle.std.specs.Prelude.{◌≡◌, ◌++◌, ◌+◌, ◌≤◌, length, drop};
ghost use Rattle.rules.specs.Decks.{symbol_room, header_words};
ghost use Rattle.text_rules.specs.Text.{text_words};
ghost use Rattle.encoding.specs.Encoding.{Encodable};

use naming::table::DeclaredNames;
use sizes::Sizes;

mod cells;
mod clauses;
pub mod sizes;
mod symbols;
mod walk;

// The casts here are proved to fit; `try_from` would have an error that cannot come. `room` is how many words the symbols take.
fn put_header(header: &mut [u16], format: u16, symbols: usize, room: usize, s: Sizes)
    requires size { length header.old ≡ 8 }
    requires room { room ≡ symbol_room format symbols }
    requires few { symbols ≤ room }
    requires most { 8 + room + s.clauses + s.cells ≤ 16384 }
    ensures { header.new ≡ header_words format symbols s.clauses s.cells }
{
    let starts = 8 + room;
    let cells = starts + s.clauses;
    let words = cells + s.cells;
    header.copy_from_slice(&[
        format,
        symbols as u16,
        8,
        s.clauses as u16,
        starts as u16,
        s.cells as u16,
        cells as u16,
        words as u16,
    ]);
}

// The words of a text of those sizes, at the start of the list.
pub fn encode(names: DeclaredNames, s: Sizes, deck: &mut [u16])
    requires { Encodable names s (length deck.old) }
    ensures { let text = names.entry.all.text.text.now in deck.new ≡ text_words text ++ drop (length (text_words text)) deck.old }
{
    let n = names.all.count;
    let room = n + names.all.second_words();
    let (header, words) = deck.split_at_mut(8);
    let (symbols, words) = words.split_at_mut(room);
    let (starts, cells) = words.split_at_mut(s.clauses);
    put_header(header, names.all.format(), n, room, s);
    symbols::put_symbols(names, symbols);
    clauses::put_clauses(names, starts, cells);
}
