// Texts of at most 4,096 declarations: their names in a table.
ghost use Rattle.std.specs.Prelude.{◌≡◌};
ghost use Rattle.std.proofs.Math.Option.{none};
ghost use Rattle.text_rules.specs.Text.{bad_place};
ghost use Rattle.reading.specs.Reads.{DidRead};

use crate::{ReadError, many, room};
use deck::Refusal;
use encoding::sizes;
use naming::table::{DeclaredNames, NameError};
use text::names::Names;
use text::readable::Readable;
use uses::checking::misused_in_table;

// A text in the grammar. A call of its own, as read_named and many::error: so its table is on the stack only while it is wanted.
#[inline(never)]
pub fn read_items(text: Readable, deck: &mut [u16]) -> Result<usize, ReadError>
    ensures { DidRead text.entry.text.now deck.old result deck.new }
{
    let mut names = Names::new(text.text);
    match DeclaredNames::new(text, &mut names) {
        Ok(names) => read_named(names, deck),
        Err(NameError::Twice(place)) => Err(ReadError::Unreadable(place)),
        Err(NameError::Many) => Err(many::error(text, deck.len())),
    }
}

// Its names are declared once each.
#[inline(never)]
fn read_named(names: DeclaredNames, deck: &mut [u16]) -> Result<usize, ReadError>
    ensures { DidRead names.entry.all.text.text.now deck.old result deck.new }
{
    match misused_in_table(names) {
        Some(name) => Err(ReadError::Unreadable(name)),
        None => read_used(names, deck),
    }
}

// And well used.
fn read_used(names: DeclaredNames, deck: &mut [u16]) -> Result<usize, ReadError>
    requires { bad_place names.all.text.text.now ≡ none }
    ensures { DidRead names.entry.all.text.text.now deck.old result deck.new }
{
    let s = sizes::sizes_of(names.all);
    if !room::fits(names.all, s, deck.len()) {
        return Err(ReadError::Refused(Refusal::Room));
    }
    encoding::encode(names, s, deck);
    let symbols = names.all.count + names.all.second_words();
    let total = 8 + symbols + s.clauses + s.cells;
    deck::open(&deck[..total])?;
    Ok(total)
}
