// The budget, and the numbers of a file of goals.
ghost use Rattle.std.specs.Prelude.{◌≡◌, ◌+◌, ◌*◌, ◌≤◌, min, length, drop, IfOk};
ghost use Rattle.rules.specs.CarryProgram.{budget_after, budget_from, number_from, goals_input};
ghost use Rattle.listing.specs.Printed.{file_of};
ghost use Rattle.program_parts.specs.Answers.{ComesTo};

use deck::Refusal;
use program::BUDGET;
use program_parts::are_words;

// The budget that a text of digits is, or the program's where there is none.
pub fn budget(text: Option<&[u8]>) -> u32
    ensures { result ≡ budget_from (file_of text.entry) }
{
    match text {
        Some(text) => digits(text),
        None => BUDGET,
    }
}

// The number of the digits before the first other byte, or the greatest of 32 bits.
// As a loop (c): as `take_while(..).fold(..)` the goal `returns` stays open, that its result is the `fold` over the `take_while` of the text.
fn digits(text: &[u8]) -> u32
    ensures { result ≡ budget_after 0 text.now }
{
    let mut n = 0;
    for &byte in text {
        if !byte.is_ascii_digit() {
            return n;
        }
        n = with_digit(n, byte - b'0');
    }
    n
}

// Not one with text's `decimal` (d): that is u16, and a generic one would need a bound with both operations.
fn with_digit(n: u32, digit: u8) -> u32
    ensures { result ≡ min (10 * n + digit) 4294967295 }
{
    n.saturating_mul(10).saturating_add(u32::from(digit))
}

// The bytes of a file of goals, if there is one, of a possible length: else refusal 12.
pub fn goals_file(file: Option<&[u8]>) -> Result<&[u8], Refusal>
    ensures comes { ComesTo (goals_input (file_of file.entry)) result }
    ensures length { IfOk result (λ bytes. (24 ≤ length bytes.now) × (length bytes.now ≤ 32792)) }
{
    file.filter(|bytes| are_words(bytes, 24, 32792))
        .ok_or(Refusal::Goals)
}

// The number of 64 bits at a place, low byte first.
pub fn number(bytes: &[u8], at: usize) -> u64
    requires { at + 8 ≤ length bytes.now }
    ensures { result ≡ number_from 8 (drop at bytes.now) }
{
    let eight = <[u8; 8]>::try_from(&bytes[at..at + 8]).unwrap();
    u64::from_le_bytes(eight)
}
