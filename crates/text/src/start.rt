// Where a text's items begin.
ghost use Rattle.std.specs.Prelude.{◌≤◌, length};
ghost use Rattle.text.specs.Starts.{Version, Starts};

use crate::tokens::{Kind, Token, next_token};

// Whether the text begins with `v2.`, so that numbers may be declared in it, and the place after that.
#[derive(Clone, Copy, Debug, PartialEq, Eq)]
pub struct Start {
    pub numbers: bool,
    pub at: usize,
}

impl Start {
    pub fn of(text: &[u8]) -> Start
        ensures { Starts text.now result }
    {
        let first = next_token(text, 0);
        if !is_version(text, first) {
            return Start {
                numbers: false,
                at: 0,
            };
        }
        let second = next_token(text, first.to);
        let Kind::Dot = second.kind else {
            return Start {
                numbers: false,
                at: 0,
            };
        };
        Start {
            numbers: true,
            at: second.to,
        }
    }
}

// Whether the token is `v2`.
fn is_version(text: &[u8], t: Token) -> bool
    requires { (t.from ≤ t.to) × (t.to ≤ length text.now) }
    ensures { Version text.now t result }
{
    let Kind::Name = t.kind else {
        return false;
    };
    &text[t.from..t.to] == b"v2".as_slice()
}
