// The number of a name's arguments.
ghost use Rattle.std.specs.Prelude.{◌≡◌, ◌≤◌, ◌<◌, length, drop};
ghost use Rattle.text_rules.specs.TextTokens.{tokens};
ghost use Rattle.text_rules.specs.TextWords.{given_arguments};
ghost use Rattle.text.specs.Counting.{Counts};

use crate::tokens::{Kind, next_token};
use crate::walk::Tokens;

// Brackets open inside the name's own, and arguments begun.
#[derive(Clone, Copy, Debug, PartialEq, Eq)]
pub struct Count {
    pub depth: usize,
    pub begun: usize,
}

// After a token of that kind; none where it closes the name's own bracket.
#[tactic(auto, unfolding(text_rules::specs::TextWords::commas))]
fn counted(c: Count, kind: Kind) -> Option<Count>
    requires { (c.depth < usize.MAX) × (c.begun < usize.MAX) }
    ensures { Counts c kind result }
{
    let Count { depth, begun } = c;
    match (kind, depth) {
        (Kind::Opening, _) => Some(Count {
            depth: depth + 1,
            begun,
        }),
        (Kind::Closing, 0) => None,
        (Kind::Closing, _) => Some(Count {
            depth: depth - 1,
            begun,
        }),
        (Kind::Comma, 0) => Some(Count {
            depth,
            begun: begun + 1,
        }),
        _ => Some(c),
    }
}

// The arguments of a name that ends at `at`.
pub fn arguments(text: &[u8], at: usize) -> usize
    requires { at ≤ length text.now }
    ensures { result ≡ given_arguments (tokens 0 (drop at text.now)) }
{
    let first = next_token(text, at);
    let Kind::Opening = first.kind else {
        return 0;
    };
    let mut count = Count { depth: 0, begun: 1 };
    for t in Tokens::new(text, first.to) {
        let Some(next) = counted(count, t.kind) else {
            return count.begun;
        };
        count = next;
    }
    count.begun
}
