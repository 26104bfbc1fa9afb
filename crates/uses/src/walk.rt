// The uses of names, one after another.
ghost use Rattle.std.specs.Prelude.{◌≡◌, ◌≤◌, ◌<◌, length, drop};
ghost use Rattle.std.proofs.Props.{props};
ghost use Rattle.text_rules.specs.TextTokens.{tokens};
ghost use Rattle.uses.specs.Pairs.{GivenFrom};

use crate::brackets::count;
use text::readable::Readable;
use text::tokens::{Kind, Token, next_token};

// The name is the bytes from `from` up to `to`. More arguments than 65,535 are told as so many, since no arity is over 15.
#[derive(Clone, Copy, Debug, PartialEq, Eq)]
pub struct Use {
    pub from: usize,
    pub to: usize,
    pub arguments: u16,
}

// The uses from `at` on; the pairs of brackets from there on have the arguments `given`, from place i on.
#[derive(Drop)]
pub struct Uses<'a> {
    pub text: Readable<'a>,
    pub at: usize,
    pub given: [u16; 4096],
    pub i: usize,
    ghost inside: { at ≤ length text.text.now },
    ghost some: { i < 4096 },
    ghost known: { GivenFrom given i (tokens 0 (drop at text.text.now)) } by { Prim.hlevel props },
}

impl<'a> Uses<'a> {
    ghost use Rattle.text_rules.specs.TextWords.{given_arguments};
    ghost use Rattle.text.specs.declared.tokens.Kind.TheVariants.{Ending};
    ghost use Rattle.text.specs.Scan.{NextToken};
    ghost use Rattle.uses.specs.Pairs.{told};

    pub fn new(text: Readable<'a>, at: usize) -> Uses<'a>
        requires { at ≤ length text.text.now }
        ensures text { result.text ≡ text.entry }
        ensures at { result.at ≡ at }
    {
        let given = count(text.text, at);
        Uses {
            text,
            at,
            given,
            i: 0,
        }
    }

    // The arguments of a name that ends at the place.
    fn arguments(&self) -> u16
        ensures { result ≡ told (given_arguments (tokens 0 (drop self.now.at self.now.text.text.now))) }
    {
        match next_token(self.text.text, self.at).kind {
            Kind::Opening => self.given[self.i],
            _ => 0,
        }
    }

    // Goes to a place, with the pairs from there on counted anew. By itself, since in `pass` the array would be cleared for each token.
    #[inline(never)]
    fn refill(&mut self, at: usize)
        requires { at ≤ length self.old.text.text.now }
        ensures text { self.new.text ≡ self.old.text }
        ensures at { self.new.at ≡ at }
    {
        self.at = at;
        self.given = count(self.text.text, at);
        self.i = 0;
    }

    // Goes on after the next token; after the last pair that is given, the next ones are counted.
    fn pass(&mut self, t: Token)
        requires next { NextToken self.old.text.text.now self.old.at t }
        requires more { t.kind ≡ Ending → ⊥ }
        ensures text { self.new.text ≡ self.old.text }
        ensures at { self.new.at ≡ t.to }
    {
        let Kind::Opening = t.kind else {
            self.at = t.to;
            return;
        };
        if self.i == 4095 {
            self.refill(t.to);
            return;
        }
        self.at = t.to;
        self.i += 1;
    }
}

impl Iterator for Uses<'_> {
    ghost use Rattle.uses.specs.Uses.{GivesUse, uses_left};

    type Item = Use;

    ghost next_gives = { GivesUse };

    ghost remaining = { uses_left };

    fn next(&mut self) -> Option<Use> {
        // No `for` over `Tokens` (b): it proves, but with it here and in encoding a text of 2,000 clauses is read in 890 us, with the loops in 857; the bar is 879.
        loop {
            let t = next_token(self.text.text, self.at);
            if let Kind::Ending = t.kind {
                return None;
            }
            self.pass(t);
            if let Kind::Name = t.kind {
                let arguments = self.arguments();
                return Some(Use {
                    from: t.from,
                    to: t.to,
                    arguments,
                });
            }
        }
    }
}
