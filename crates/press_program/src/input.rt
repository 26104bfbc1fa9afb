// A display's file.
ghost use Rattle.std.specs.Prelude.{◌≡◌, ◌≤◌, length, IfOk};
ghost use Rattle.listing.specs.Printed.{file_of};
ghost use Rattle.program_parts.specs.Answers.{ComesTo};
ghost use Rattle.evaluation.specs.Displays.{display_of};
ghost use Rattle.press_program.specs.PressProgram.{display_input, display_from};

use carry_program::input::number;
use deck::Refusal;
use evaluation::press::Display;
use program_parts::are_words;

// The bytes of a display's file, if there is one, of a possible length: else refusal 12.
pub fn display_file(file: Option<&[u8]>) -> Result<&[u8], Refusal>
    ensures comes { ComesTo (display_input (file_of file.entry)) result }
    ensures length { IfOk result (λ bytes. (48 ≤ length bytes.now) × (length bytes.now ≤ 32816)) }
{
    file.filter(|bytes| are_words(bytes, 48, 32816))
        .ok_or(Refusal::Goals)
}

// The record at its start.
pub fn display(bytes: &[u8]) -> Display
    requires { 48 ≤ length bytes.now }
    ensures { display_of result ≡ display_from bytes.now }
{
    Display {
        steps: number(bytes, 0),
        cost: number(bytes, 8),
        answers: number(bytes, 16),
        pending: number(bytes, 24),
        parked: number(bytes, 32),
    }
}
