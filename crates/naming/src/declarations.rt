// One declaration of a readable text.
ghost use Rattle.std.specs.Prelude.{◌≡◌, ◌≤◌, true, length, drop};
ghost use Rattle.std.proofs.Math.Option.{none};
ghost use Rattle.rules.specs.Decks.{write_symbol};
ghost use Rattle.text_rules.specs.TextTokens.{tokens};
ghost use Rattle.text_rules.specs.TextGrammar.{declared, number_declared, unread};
ghost use Rattle.text_rules.specs.TextWords.{arity};
ghost use Rattle.text_rules.specs.Text.{numbers_in};
ghost use Rattle.text.specs.Steps.{option_of};
ghost use Rattle.naming.specs.Walks.{symbol_of, value_of, declared_as, Readable, ArityAt, ValueAt, At};

use text::grammar::{Key, key_of};
use text::tokens::{Kind, Token, next_token};

// A symbol as it is declared: by its arity, or a number by the word of its value.
#[derive(Clone, Copy, Debug, PartialEq, Eq)]
pub enum Symbol {
    Function(u16),
    Predicate(u16),
    Number(u16),
}

impl Default for Symbol {
    fn default() -> Symbol {
        Symbol::Function(0)
    }
}

impl Symbol {
    // The symbol's word in format 1: the arity, plus 256 for a predicate. `signature` reads the words of a deck, and there is none yet.
    #[tactic(auto, unfolding(rules::specs::Decks::write_symbol))]
    pub fn word(self) -> u16
        requires { arity (symbol_of self) ≤ 15 }
        ensures { result ≡ write_symbol (symbol_of self) }
    {
        match self {
            Symbol::Function(arity) => arity,
            Symbol::Predicate(arity) => 256 + arity,
            Symbol::Number(_) => 0,
        }
    }

    // The word of a number's value.
    pub fn value(self) -> Option<u16>
        ensures { value_of self ≡ option_of result }
    {
        match self {
            Symbol::Number(word) => Some(word),
            _ => None,
        }
    }

    // A number takes no arguments.
    pub fn arity(self) -> u16
        ensures { result ≡ arity (symbol_of self) }
    {
        match self {
            Symbol::Function(arity) | Symbol::Predicate(arity) => arity,
            Symbol::Number(_) => 0,
        }
    }
}

// The name is the bytes from `from` up to `to`; the declaration ends before `end`.
#[derive(Clone, Copy, Debug, PartialEq, Eq)]
pub struct Declaration {
    pub from: usize,
    pub to: usize,
    pub symbol: Symbol,
    pub end: usize,
}

impl Declaration {
    fn of(name: Token, symbol: Symbol, end: usize) -> Declaration
        ensures { result ≡ declared_as name symbol end }
    {
        Declaration {
            from: name.from,
            to: name.to,
            symbol,
            end,
        }
    }
}

// What stands after a declared name: an arity, or the word of a value; and the place after the dot.
#[derive(Clone, Copy, Debug, PartialEq, Eq)]
pub struct Counted {
    pub number: u16,
    pub end: usize,
}

// After the name of a function symbol or predicate.
fn arity_at(text: &[u8], at: usize) -> Counted
    requires { (at ≤ length text.now) × (unread (declared (numbers_in text.now)) (tokens 0 (drop at text.now)) ≡ none) }
    ensures { ArityAt text.now at result }
{
    let slash = next_token(text, at);
    let given = next_token(text, slash.to);
    let Kind::Number(number) = given.kind else {
        unreachable!();
    };
    let dot = next_token(text, given.to);
    Counted {
        number,
        end: dot.to,
    }
}

// After the name of a number.
fn value_at(text: &[u8], at: usize) -> Counted
    requires start { at ≤ length text.now }
    requires numbers { numbers_in text.now ≡ true }
    requires readable { unread number_declared (tokens 0 (drop at text.now)) ≡ none }
    ensures { ValueAt text.now at result }
{
    let given = next_token(text, at);
    let (Kind::Number(number) | Kind::Amount(number)) = given.kind else {
        unreachable!();
    };
    let dot = next_token(text, given.to);
    Counted {
        number,
        end: dot.to,
    }
}

// The declaration at a place; none where the first clause or the end stands there.
pub fn item_at(text: &[u8], at: usize) -> Option<Declaration>
    requires { (at ≤ length text.now) × Readable text.now at }
    ensures { At text.now at result }
{
    let first = next_token(text, at);
    let key = key_of(text, first)?;
    let name = next_token(text, first.to);
    let Kind::Name = name.kind else {
        return None;
    };
    match key {
        Key::Function => {
            let n = arity_at(text, name.to);
            Some(Declaration::of(name, Symbol::Function(n.number), n.end))
        }
        Key::Predicate => {
            let n = arity_at(text, name.to);
            Some(Declaration::of(name, Symbol::Predicate(n.number), n.end))
        }
        Key::Number => {
            let n = value_at(text, name.to);
            Some(Declaration::of(name, Symbol::Number(n.number), n.end))
        }
    }
}
