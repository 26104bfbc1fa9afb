// A walk over the tokens of a text.
ghost use Rattle.std.specs.Prelude.{◌≡◌, ◌≤◌, length};

use crate::tokens::{Kind, Token, next_token};

// The tokens from a place on, up to the end of the text.
#[derive(Clone, Copy)]
pub struct Tokens<'a> {
    pub text: &'a [u8],
    pub at: usize,
    ghost inside: { at ≤ length text.now },
}

impl<'a> Tokens<'a> {
    pub fn new(text: &'a [u8], at: usize) -> Tokens<'a>
        requires { at ≤ length text.now }
        ensures { (result.text.now ≡ text.now) × (result.at ≡ at) }
    {
        Tokens { text, at }
    }
}

impl Iterator for Tokens<'_> {
    ghost use Rattle.text.specs.Tokens.{GivesToken, bytes_left};

    type Item = Token;

    ghost next_gives = { GivesToken };

    ghost remaining = { bytes_left };

    fn next(&mut self) -> Option<Token> {
        let t = next_token(self.text, self.at);
        if let Kind::Ending = t.kind {
            return None;
        }
        self.at = t.to;
        Some(t)
    }
}
