// The arities of names in a table, by one walk over the declarations.
ghost use Rattle.std.specs.Prelude.{◌≡◌, ℕ, ◌≤◌, ◌<◌, None, IfSome, length, get_or};
ghost use Rattle.text_rules.specs.Text.{text_declarations};
ghost use Rattle.text.specs.Names.{name_at};
ghost use Rattle.uses.specs.Batches.{Distinct, arity_in, is_arity, ArityGiven, FirstOther};

use naming::walks::Walk;
use text::names::{Names, ROOM};
use text::readable::Readable;

// An arity for the name of that number, if it has none yet.
fn put(found: &mut [Option<u16>; 4096], j: Option<usize>, arity: u16)
    requires { IfSome j (λ i. i < 4096) }
    ensures { ArityGiven found.old j arity found.new }
{
    if let Some(j) = j {
        if found[j].is_none() {
            found[j] = Some(arity);
        }
    }
}

// The arity of each name's first declaration, beside the table: in its entries it would need a call that changes what was entered. `same`: a table may be of any text.
pub fn declared(text: Readable, names: &Names<u16, ROOM>) -> [Option<u16>; 4096]
    requires same { names.now.text ≡ text.text.now }
    requires distinct { Distinct names.now }
    ensures { (j : ℕ) → j < length names.now.entries → get_or result j None ≡ arity_in (text_declarations names.now.text) (name_at names.now j) }
{
    let mut found = [None; 4096];
    for d in Walk::new(text) {
        let j = names.find(&text.text[d.from..d.to]);
        put(&mut found, j, d.symbol.arity());
    }
    found
}

fn agrees(found: Option<u16>, given: u16) -> bool
    ensures { result ≡ is_arity found given }
{
    found.is_some_and(|arity| arity == given)
}

// The first name that is not declared with the arguments given.
pub fn first_other(found: &[Option<u16>; 4096], names: &Names<u16, ROOM>) -> Option<usize>
    ensures { FirstOther found.now names.now result }
{
    (0..names.len()).find(|j| !agrees(found[*j], names.get(*j).value))
}
