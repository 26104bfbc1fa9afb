// Classes of bytes.
ghost use Rattle.std.specs.Prelude.{◌≡◌};
ghost use Rattle.text_rules.specs.TextTokens.{space, is_class, digit_byte, word_byte, class_of};
ghost use Rattle.text.specs.Kinds.{rule_class};

use crate::tokens::Kind;
use Class::{Colon, Digit, Letter, Minus, Space, Underscore, Unknown, Zero};

// A mark is a token by itself; `Unknown` is the class that the rules give to other bytes.
#[derive(Clone, Copy, Debug, PartialEq, Eq)]
pub enum Class {
    Unknown,
    Space,
    Letter,
    Zero,
    Digit,
    Underscore,
    Colon,
    Minus,
    Mark(Kind),
}

const SLASH: Class = Class::Mark(Kind::Slash);

const DOT: Class = Class::Mark(Kind::Dot);

const OPENING: Class = Class::Mark(Kind::Opening);

const CLOSING: Class = Class::Mark(Kind::Closing);

const COMMA: Class = Class::Mark(Kind::Comma);

const TILDE: Class = Class::Mark(Kind::Tilde);

// A table and no `match`: document 02 (U1) has bytes classed by a constant table of 128 entries.
static CLASSES: [Class; 128] = [
    Unknown, Unknown, Unknown, Unknown, Unknown, Unknown, Unknown, Unknown, Unknown, Unknown,
    Space, Unknown, Unknown, Unknown, Unknown, Unknown, Unknown, Unknown, Unknown, Unknown,
    Unknown, Unknown, Unknown, Unknown, Unknown, Unknown, Unknown, Unknown, Unknown, Unknown,
    Unknown, Unknown, Space, Unknown, Unknown, Unknown, Unknown, Unknown, Unknown, Unknown,
    OPENING, CLOSING, Unknown, Unknown, COMMA, Minus, DOT, SLASH, Zero, Digit, Digit, Digit, Digit,
    Digit, Digit, Digit, Digit, Digit, Colon, Unknown, Unknown, Unknown, Unknown, Unknown, Unknown,
    Unknown, Unknown, Unknown, Unknown, Unknown, Unknown, Unknown, Unknown, Unknown, Unknown,
    Unknown, Unknown, Unknown, Unknown, Unknown, Unknown, Unknown, Unknown, Unknown, Unknown,
    Unknown, Unknown, Unknown, Unknown, Unknown, Unknown, Unknown, Unknown, Unknown, Unknown,
    Underscore, Unknown, Letter, Letter, Letter, Letter, Letter, Letter, Letter, Letter, Letter,
    Letter, Letter, Letter, Letter, Letter, Letter, Letter, Letter, Letter, Letter, Letter, Letter,
    Letter, Letter, Letter, Letter, Letter, Unknown, Unknown, Unknown, TILDE, Unknown,
];

// The bytes above 127 belong to no class.
pub fn class_of(b: u8) -> Class
    ensures { rule_class result ≡ class_of b }
{
    let i = usize::from(b);
    if i < 128 { CLASSES[i] } else { Unknown }
}

#[tactic(auto, unfolding(text_rules::specs::TextTokens::is_class, text_rules::specs::TextTokens::digit_byte, text_rules::specs::TextTokens::word_byte))]
pub fn is_space(b: u8) -> bool
    ensures { result ≡ is_class space b }
{
    matches!(class_of(b), Class::Space)
}

#[tactic(auto, unfolding(text_rules::specs::TextTokens::is_class, text_rules::specs::TextTokens::digit_byte, text_rules::specs::TextTokens::word_byte))]
pub fn is_digit(b: u8) -> bool
    ensures { result ≡ digit_byte b }
{
    matches!(class_of(b), Class::Zero | Class::Digit)
}

// A letter or a digit.
#[tactic(auto, unfolding(text_rules::specs::TextTokens::is_class, text_rules::specs::TextTokens::digit_byte, text_rules::specs::TextTokens::word_byte))]
pub fn is_word(b: u8) -> bool
    ensures { result ≡ word_byte b }
{
    matches!(class_of(b), Class::Letter | Class::Zero | Class::Digit)
}
