// The line of a mean.
ghost use Rattle.std.specs.Prelude.{◌≡◌, ℕ, List, [], ◌∷◌, ◌≤◌, ◌<◌, length};
ghost use Rattle.std.specs.Int.RustNames.{unsigned_abs};
ghost use Rattle.rules.specs.Syntax.{Goal};
ghost use Rattle.rules.specs.Goals.{Marked};
ghost use Rattle.rules.specs.Refusals.{accepted};
ghost use Rattle.rules.specs.Listing.{verdict_text};
ghost use Rattle.report.specs.Reports.{stop_of};
ghost use Rattle.listing.specs.Put.{Fits, Adds};
ghost use Rattle.listing.specs.Printed.{Printed};
ghost use Rattle.mean_program.specs.MeanProgram.{MeanRun, signed, mean_prints};
ghost use Rattle.mean_program.specs.Told.{ToldOf};

use crate::Told;
use listing::output::Output;
use report::Stop;

// The first line of a listing with answers: `all` (finished, nothing parked) or `open`.
fn verdict(stop: Stop, parked: u32) -> &'static [u8]
    ensures { (ms : List Marked) (gs : List Goal) → length ms ≡ parked → 1 ≤ length gs → result.now ≡ verdict_text (stop_of stop) ms gs }
{
    match stop {
        Stop::Finished if parked != 0 => b"open",
        Stop::Finished => b"all",
        _ => b"open",
    }
}

// Writes a space and a number with its sign.
fn put_signed(out: &mut Output, n: i64)
    requires small { unsigned_abs n < 4294967296 }
    requires room { Fits out.old (32 ∷ signed n []) }
    ensures { Adds out.old (32 ∷ signed n []) out.new }
{
    // `as`, since the clause says that it fits: `try_from` has an error that cannot come.
    let size = n.unsigned_abs() as u32;
    if 0 <= n {
        return out.put_prefixed(b' ', size);
    }
    out.put(b" -");
    out.put_number(size);
}

// Writes the line. Returns the number of bytes.
pub fn put_line(bytes: &mut [u8], told: Told) -> usize
    requires { (64 ≤ length bytes.old) × ((r : MeanRun) × ToldOf r told) }
    ensures { (r : MeanRun) → ToldOf r told → Printed (mean_prints (accepted r)) bytes.old result bytes.new }
{
    let mut out = Output::new(bytes);
    let report = told.report;
    out.put(verdict(report.stop, report.parked));
    put_signed(&mut out, told.mean.sum);
    // `as`, since the clauses say that both numbers fit.
    out.put_prefixed(b' ', report.answers as u32);
    put_signed(&mut out, told.mean.whole);
    out.put_prefixed(b' ', told.mean.remainder as u32);
    out.put(b"\n");
    out.at
}
