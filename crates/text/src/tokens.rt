// The token at a place of a text. Text and place stay two parameters: `Tokens` has both, with the bound, but each call here would make one anew.
ghost use Rattle.std.specs.Prelude.{◌≡◌, ◌+◌, ◌-◌, ◌≤◌, ◌<◌, ◌⊎◌, length, get_or, take, drop, min};
ghost use Rattle.std.specs.List.{prefix_len};
ghost use Rattle.text_rules.specs.TextTokens.{space, is_class, letter, zero_digit, digit, underscore, colon, minus, class_of, word_byte, digit_byte, longest, numeral, value};
ghost use Rattle.text.specs.Scan.{Skipped, DigitsAt, single, NumberKind, NegativeKind, Scanned, NextToken};

use crate::classes::{Class, class_of, is_digit, is_space, is_word};

// A number and a variable have their value: an arity is at most 15, a variable at most 1,023. An amount has the word of its value, in two's complement. `Ending` and `Invalid` are kinds of the rules, so they are kinds here.
#[derive(Clone, Copy, Debug, PartialEq, Eq)]
pub enum Kind {
    Invalid,
    Ending,
    Name,
    Number(u16),
    Amount(u16),
    Variable(u16),
    Implies,
    Slash,
    Dot,
    Opening,
    Closing,
    Comma,
    Tilde,
}

// The token's bytes are those from `from` up to `to`; no slice of them, since a name's place is told and most tokens' bytes are not read again.
#[derive(Clone, Copy, Debug, PartialEq, Eq)]
pub struct Token {
    pub kind: Kind,
    pub from: usize,
    pub to: usize,
}

// Where a number ends, and its value, at most 65,535: each bound is below that, so no `Option` is opened before the bound is tested.
#[derive(Clone, Copy, Debug, PartialEq, Eq)]
pub struct Numeral {
    pub to: usize,
    pub value: u16,
}

// The bytes of spacing in front. With the test as a closure these three chains would be one function, with a longer clause than all of them.
fn spaces(bytes: &[u8]) -> usize
    ensures { result ≡ prefix_len (is_class space) bytes.now }
{
    bytes.iter().take_while(|b| is_space(**b)).count()
}

// The letters and digits in front, at most 15 of them.
fn words(bytes: &[u8]) -> usize
    ensures { result ≡ prefix_len word_byte (take 15 bytes.now) }
{
    bytes.iter().take(15).take_while(|b| is_word(**b)).count()
}

// The digits in front.
fn digits(bytes: &[u8]) -> usize
    ensures { result ≡ prefix_len digit_byte bytes.now }
{
    bytes.iter().take_while(|b| is_digit(**b)).count()
}

// The value of digits, or 65,535 where it is more.
fn decimal(digits: &[u8]) -> u16
    ensures { result ≡ min 65535 (value 0 digits.now) }
{
    digits.iter().fold(0u16, |n, b| {
        n.saturating_mul(10)
            .saturating_add(u16::from(b.saturating_sub(b'0')))
    })
}

// The first place from `at` on that is no spacing.
fn skip_spaces(text: &[u8], at: usize) -> usize
    requires { at ≤ length text.now }
    ensures { Skipped text.now at result }
{
    at + spaces(&text[at..])
}

// The end of the letters and digits from `from` on, at most 15 of them.
fn name_end(text: &[u8], from: usize) -> usize
    requires { from ≤ length text.now }
    ensures { (from ≤ result) × (result ≤ length text.now) × (result - from ≡ length (take 15 (longest word_byte (drop from text.now)))) }
{
    from + words(&text[from..])
}

// The digits from `from` on.
fn digits_at(text: &[u8], from: usize) -> Numeral
    requires { from ≤ length text.now }
    ensures { DigitsAt text.now from (longest digit_byte (drop from text.now)) result }
{
    let to = from + digits(&text[from..]);
    Numeral {
        to,
        value: decimal(&text[from..to]),
    }
}

// The number at `from`, without leading zeros; it ends at `from` where no digit stands there. As an `Option`, number_token would meet a `None` that cannot come.
fn number_at(text: &[u8], from: usize) -> Numeral
    requires { from ≤ length text.now }
    ensures { DigitsAt text.now from (numeral (drop from text.now)) result }
{
    if text[from..].starts_with(b"0") {
        return Numeral {
            to: from + 1,
            value: 0,
        };
    }
    digits_at(text, from)
}

// A token of one byte.
fn one_byte(kind: Kind, from: usize) -> Token
    requires { from < usize.MAX }
    ensures { result ≡ single kind from }
{
    Token {
        kind,
        from,
        to: from + 1,
    }
}

fn name_token(text: &[u8], from: usize) -> Token
    requires { (from < length text.now) × (class_of (get_or text.now from 0) ≡ letter) }
    ensures { Scanned text.now from result }
{
    Token {
        kind: Kind::Name,
        from,
        to: name_end(text, from + 1),
    }
}

// The kind of a number: an arity, or a value that is none.
#[tactic(auto, using(crate::proofs::KindLaws::arity_kind, crate::proofs::KindLaws::amount_kind, crate::proofs::KindLaws::no_kind))]
fn number_kind(value: u16) -> Kind
    ensures { NumberKind value result }
{
    match value {
        0..=15 => Kind::Number(value),
        16..=32767 => Kind::Amount(value),
        _ => Kind::Invalid,
    }
}

// The kind of `-` and a number, which is not 0.
#[tactic(auto, using(crate::proofs::KindLaws::negative_amount, crate::proofs::KindLaws::minus_zero, crate::proofs::KindLaws::minus_large))]
fn negative_kind(value: u16) -> Kind
    ensures { NegativeKind value result }
{
    match value {
        1..=32768 => Kind::Amount(u16::MAX - value + 1),
        _ => Kind::Invalid,
    }
}

// As one function with negative_token and variable_token this would take the bytes in front and the kind as a closure, whose contract is longer than each.
fn number_token(text: &[u8], from: usize) -> Token
    requires { (from < length text.now) × ((class_of (get_or text.now from 0) ≡ zero_digit) ⊎ (class_of (get_or text.now from 0) ≡ digit)) }
    ensures { Scanned text.now from result }
{
    let n = number_at(text, from);
    let kind = number_kind(n.value);
    Token {
        kind,
        from,
        to: n.to,
    }
}

fn negative_token(text: &[u8], from: usize) -> Token
    requires { (from < length text.now) × (class_of (get_or text.now from 0) ≡ minus) }
    ensures { Scanned text.now from result }
{
    let n = number_at(text, from + 1);
    let to = n.to;
    if to == from + 1 {
        return one_byte(Kind::Invalid, from);
    }
    let kind = negative_kind(n.value);
    Token { kind, from, to }
}

fn variable_token(text: &[u8], from: usize) -> Token
    requires { (from < length text.now) × (class_of (get_or text.now from 0) ≡ underscore) }
    ensures { Scanned text.now from result }
{
    let n = number_at(text, from + 1);
    let to = n.to;
    if to == from + 1 {
        return one_byte(Kind::Invalid, from);
    }
    if n.value <= 1023 {
        return Token {
            kind: Kind::Variable(n.value),
            from,
            to,
        };
    }
    Token {
        kind: Kind::Invalid,
        from,
        to,
    }
}

fn implies_token(text: &[u8], from: usize) -> Token
    requires { (from < length text.now) × (class_of (get_or text.now from 0) ≡ colon) }
    ensures { Scanned text.now from result }
{
    if text[from + 1..].starts_with(b"-") {
        return Token {
            kind: Kind::Implies,
            from,
            to: from + 2,
        };
    }
    one_byte(Kind::Invalid, from)
}

// The token that begins at `from`, which is no spacing.
fn token_at(text: &[u8], from: usize) -> Token
    requires { from < length text.now }
    ensures { Scanned text.now from result }
{
    match class_of(text[from]) {
        Class::Letter => name_token(text, from),
        Class::Zero | Class::Digit => number_token(text, from),
        Class::Underscore => variable_token(text, from),
        Class::Colon => implies_token(text, from),
        Class::Minus => negative_token(text, from),
        Class::Mark(kind) => one_byte(kind, from),
        Class::Unknown | Class::Space => one_byte(Kind::Invalid, from),
    }
}

// The next token from `at` on.
pub fn next_token(text: &[u8], at: usize) -> Token
    requires { at ≤ length text.now }
    ensures { NextToken text.now at result }
{
    let from = skip_spaces(text, at);
    if from < text.len() {
        return token_at(text, from);
    }
    Token {
        kind: Kind::Ending,
        from,
        to: from,
    }
}
