// The declared names of a text in a table.
ghost use Rattle.std.specs.Prelude.{◌≡◌, []};
ghost use Rattle.std.proofs.Props.{props};
ghost use Rattle.naming.specs.Table.{Declared};

use crate::declarations::Symbol;
use crate::walks::{Declarations, Walk};
use text::names::{Entry, Names, ROOM};
use text::readable::Readable;

// A name declared for the second time, at that place; or more declarations than the table has room for.
#[derive(Clone, Copy, Debug, PartialEq, Eq)]
pub enum NameError {
    Twice(usize),
    Many,
}

// The declarations of a text, and a table with the name of each and its symbol.
#[derive(Clone, Copy)]
pub struct DeclaredNames<'t, 'a> {
    pub all: Declarations<'a>,
    pub names: &'t Names<'a, Symbol, ROOM>,
    ghost same: { names.now.text ≡ all.text.text.now },
    ghost declared: { Declared names.now } by { Prim.hlevel props },
}

impl<'t, 'a> DeclaredNames<'t, 'a> {
    ghost use Rattle.naming.specs.Declares.{DidDeclare};

    // Enters them in the table, which has no names yet. A table may be of any text, so `same` says that it is this one.
    pub fn new(
        text: Readable<'a>,
        names: &'t mut Names<'a, Symbol, ROOM>,
    ) -> Result<DeclaredNames<'t, 'a>, NameError>
        requires same { names.old.text ≡ text.text.now }
        requires empty { names.old.entries ≡ [] }
        ensures { DidDeclare text.entry result }
    {
        let mut end = text.start.at;
        for d in Walk::new(text) {
            if names.len() == ROOM {
                return Err(NameError::Many);
            }
            if names.find(&text.text[d.from..d.to]).is_some() {
                return Err(NameError::Twice(d.from));
            }
            names.enter(Entry {
                from: d.from,
                to: d.to,
                value: d.symbol,
            });
            end = d.end;
        }
        let count = names.len();
        let all = Declarations { text, count, end };
        Ok(DeclaredNames { all, names })
    }
}
