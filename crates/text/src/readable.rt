// A text that is in the grammar.
ghost use Rattle.std.specs.Prelude.{◌≡◌};
ghost use Rattle.std.proofs.Math.Option.{none};
ghost use Rattle.std.proofs.Props.{props};
ghost use Rattle.text_rules.specs.Text.{text_unread};
ghost use Rattle.text.specs.Starts.{Starts};

use crate::grammar::unreadable;
use crate::start::Start;

#[derive(Clone, Copy)]
pub struct Readable<'a> {
    pub text: &'a [u8],
    pub start: Start,
    ghost starts: { Starts text.now start } by { Prim.hlevel props },
    ghost in_grammar: { text_unread text.now ≡ none },
}

impl<'a> Readable<'a> {
    ghost use Rattle.text.specs.Readable.{ReadsText};

    // Else the place of the first token that may not stand where it does, or the text's length where this ends too early.
    pub fn new(text: &'a [u8]) -> Result<Readable<'a>, usize>
        ensures { ReadsText text.now result }
    {
        let start = Start::of(text);
        match unreadable(text, start) {
            Some(place) => Err(place),
            None => Ok(Readable { text, start }),
        }
    }
}
