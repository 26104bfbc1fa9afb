// The two outputs of a program that keeps its open goals.
ghost use Rattle.std.specs.Prelude.{◌≤◌, length};
ghost use Rattle.carry_program.specs.Ends.{PrintsOrRefuses};

use deck::Refusal;
use program_parts::put_line;

// How many bytes there are of the listing, and of the goals left, if the run was not refused.
// Numbers beside the rooms (c): tried as a `&'a [u8]` of a room with `follows_so`; the check wants `printed_spec` by hand, and a caller's `c.out-1.given` stays open.
#[derive(Clone, Copy, Debug, PartialEq, Eq)]
pub struct Outputs {
    pub listing: usize,
    pub goals: Option<usize>,
}

// The outputs, or the line of the refusal. Not `unwrap_or_else`, as in program_parts.
pub fn or_refusal(printed: Result<Outputs, Refusal>, out: &mut [u8]) -> Outputs
    requires { 19 ≤ length out.old }
    ensures { PrintsOrRefuses printed out.old result out.new }
{
    match printed {
        Ok(outputs) => outputs,
        Err(why) => Outputs {
            listing: put_line(out, why),
            goals: None,
        },
    }
}
