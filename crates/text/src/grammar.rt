// The grammar of texts, token by token. Nothing nests: a state has the number of open brackets.
ghost use Rattle.std.specs.Prelude.{◌≡◌, ◌||◌, [], ◌∷◌, ◌≤◌, ◌<◌, length};
ghost use Rattle.text_rules.specs.TextTokens.{Token as Read};
ghost use Rattle.text_rules.specs.TextGrammar.{item, after_term, after_name, follows, next};
ghost use Rattle.text_rules.specs.Text.{text_unread, place_of};
ghost use Rattle.text.specs.Kinds.{kind_of};
ghost use Rattle.text.specs.Steps.{part_of, state_of, depth_of, step_of, Says, IsKey, Keys, option_of};
ghost use Rattle.text.specs.Starts.{Starts};

use crate::start::Start;
use crate::tokens::{Kind, Token};
use crate::walk::Tokens;

// A clause's head and its body.
#[derive(Clone, Copy, Debug, PartialEq, Eq)]
pub enum Part {
    Head,
    Body,
}

// Where a text stands, as in the rules: among the declarations, with whether numbers may be declared; in a clause, in which part, and how many brackets are open.
#[derive(Clone, Copy, Debug, PartialEq, Eq)]
pub enum State {
    Item(bool),
    Keyed(bool),
    Declared(bool),
    Slashed(bool),
    Counted(bool),
    NumberKeyed,
    NumberDeclared,
    Clause,
    Literal,
    Negated,
    Finished,
    Term(Part, usize),
    Named(Part, usize),
    After(Part, usize),
}

#[tactic(auto, unfolding(text_rules::specs::TextGrammar::after_term, text_rules::specs::TextGrammar::next))]
fn after_term(part: Part, depth: usize, kind: Kind) -> Option<State>
    ensures { Says (after_term (part_of part) depth) kind result }
{
    match (part, depth, kind) {
        (_, 0, Kind::Dot) => Some(State::Clause),
        (Part::Head, 0, Kind::Implies) => Some(State::Literal),
        (Part::Body, 0, Kind::Comma) => Some(State::Literal),
        (_, 1.., Kind::Comma) => Some(State::Term(part, depth)),
        (_, 1.., Kind::Closing) => Some(State::After(part, depth - 1)),
        _ => None,
    }
}

#[tactic(auto, unfolding(text_rules::specs::TextGrammar::after_term, text_rules::specs::TextGrammar::after_name, text_rules::specs::TextGrammar::next))]
fn after_name(part: Part, depth: usize, kind: Kind) -> Option<State>
    requires { kind ≡ Kind.Opening → depth < usize.MAX }
    ensures { Says (after_name (part_of part) depth) kind result }
{
    match kind {
        Kind::Opening => Some(State::Term(part, depth + 1)),
        _ => after_term(part, depth, kind),
    }
}

// What a declaration begins with: `fn`, `pr` or `nu`.
#[derive(Clone, Copy, Debug, PartialEq, Eq)]
pub enum Key {
    Function,
    Predicate,
    Number,
}

// The step from before an item, while there was no clause.
#[tactic(auto, unfolding(text_rules::specs::TextGrammar::follows, text_rules::specs::TextGrammar::next))]
fn before_item(numbers: bool, kind: Kind, key: Option<Key>) -> Option<State>
    ensures { (t : Read) → t.kind ≡ kind_of kind → IsKey t key → next (follows (item numbers)) t ≡ step_of result }
{
    match (key, kind) {
        (Some(Key::Function | Key::Predicate), _) => Some(State::Keyed(numbers)),
        (Some(Key::Number), _) if numbers => Some(State::NumberKeyed),
        (_, Kind::Name) => Some(State::Named(Part::Head, 0)),
        (_, Kind::Ending) => Some(State::Finished),
        _ => None,
    }
}

// The step from a state over a token of that kind, which is that key.
#[tactic(auto, unfolding(text_rules::specs::TextGrammar::follows, text_rules::specs::TextGrammar::next, text_rules::specs::TextGrammar::is_value))]
pub fn follow(s: State, kind: Kind, key: Option<Key>) -> Option<State>
    requires { kind ≡ Kind.Opening → depth_of (state_of s) < usize.MAX }
    ensures { (t : Read) → t.kind ≡ kind_of kind → IsKey t key → next (follows (state_of s)) t ≡ step_of result }
{
    match (s, kind) {
        (State::Item(numbers), _) => before_item(numbers, kind, key),
        (State::Keyed(numbers), Kind::Name) => Some(State::Declared(numbers)),
        (State::NumberKeyed, Kind::Name) => Some(State::NumberDeclared),
        (State::Keyed(_) | State::NumberKeyed, _) => after_name(Part::Head, 0, kind),
        (State::Declared(numbers), Kind::Slash) => Some(State::Slashed(numbers)),
        (State::Slashed(numbers), Kind::Number(_)) => Some(State::Counted(numbers)),
        (State::NumberDeclared, Kind::Number(_) | Kind::Amount(_)) => Some(State::Counted(true)),
        (State::Counted(numbers), Kind::Dot) => Some(State::Item(numbers)),
        (State::Clause, Kind::Name) => Some(State::Named(Part::Head, 0)),
        (State::Clause, Kind::Ending) => Some(State::Finished),
        (State::Literal, Kind::Tilde) => Some(State::Negated),
        (State::Literal | State::Negated, Kind::Name) => Some(State::Named(Part::Body, 0)),
        (State::Term(part, depth), Kind::Variable(_)) => Some(State::After(part, depth)),
        (State::Term(part, depth), Kind::Name) => Some(State::Named(part, depth)),
        (State::Named(part, depth), _) => after_name(part, depth, kind),
        (State::After(part, depth), _) => after_term(part, depth, kind),
        _ => None,
    }
}

// The key that the token is, if it is one.
pub fn key_of(text: &[u8], t: Token) -> Option<Key>
    requires { (t.from ≤ t.to) × (t.to ≤ length text.now) }
    ensures { Keys text.now t result }
{
    let Kind::Name = t.kind else {
        return None;
    };
    let bytes = &text[t.from..t.to];
    if bytes == b"fn".as_slice() {
        return Some(Key::Function);
    }
    if bytes == b"pr".as_slice() {
        return Some(Key::Predicate);
    }
    if bytes == b"nu".as_slice() {
        return Some(Key::Number);
    }
    None
}

// The first token that may not stand where it does: its place, or the text's length where this ends too early.
pub fn unreadable(text: &[u8], start: Start) -> Option<usize>
    requires { Starts text.now start }
    ensures { place_of text.now (text_unread text.now) ≡ option_of result }
{
    let mut s = State::Item(start.numbers);
    for t in Tokens::new(text, start.at) {
        let key = key_of(text, t);
        let Some(next) = follow(s, t.kind, key) else {
            return Some(t.from);
        };
        s = next;
    }
    match follow(s, Kind::Ending, None) {
        Some(_) => None,
        None => Some(text.len()),
    }
}
