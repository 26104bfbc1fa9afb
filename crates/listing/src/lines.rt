// The lines in front of the answers: verdict and stop, or the refusal.
ghost use Rattle.std.specs.Prelude.{◌≡◌, ℕ, List, [], ◌∷◌, ◌++◌, ◌+◌, ◌<◌, ◌≤◌, length};
ghost use Rattle.rules.specs.Syntax.{Goal};
ghost use Rattle.rules.specs.Goals.{Marked};
ghost use Rattle.rules.specs.Evaluation.{Outcome};
ghost use Rattle.rules.specs.Run as run;
ghost use Rattle.rules.specs.Refusals.{Refusal, refusal_number, refused};
ghost use Rattle.rules.specs.Listing.{verdict_text, stop_text, listing};
ghost use Rattle.report.specs.Reports.{stop_of, report_of};
ghost use Rattle.listing.specs.Put.{Fits, Adds};
ghost use Rattle.listing.specs.Shown.{numbers_text, head_text};

use crate::output::Output;
use report::{Report, Stop};

// The first line: `all` (finished, nothing parked, an answer), `no` (finished, nothing parked, no answer) or `open`.
fn verdict(stop: Stop, answers: u64, parked: u32) -> &'static [u8]
    ensures { (ms : List Marked) (gs : List Goal) → length ms ≡ parked → length gs ≡ answers → result.now ≡ verdict_text (stop_of stop) ms gs ++ (10 ∷ []) }
{
    match stop {
        Stop::Finished if parked != 0 => b"open\n",
        Stop::Finished if answers == 0 => b"no\n",
        Stop::Finished => b"all\n",
        _ => b"open\n",
    }
}

fn stop_word(stop: Stop) -> &'static [u8]
    ensures { result.now ≡ stop_text (stop_of stop) }
{
    match stop {
        Stop::Finished => b"finished",
        Stop::Budget => b"budget",
        Stop::Answers => b"answers",
        Stop::Store => b"store",
    }
}

// Numbers with a space in front of each, and the line's end.
fn put_numbers(out: &mut Output, numbers: &[u32])
    requires { Fits out.old (numbers_text numbers.now) }
    ensures { Adds out.old (numbers_text numbers.now) out.new }
{
    for n in numbers {
        out.put_prefixed(b' ', *n);
    }
    out.put(b"\n");
}

// The first two lines: the verdict, and then stop, steps, answers, pending, parked and cost.
pub fn put_head(out: &mut Output, report: Report)
    requires room { out.old.at + 69 ≤ length out.old.bytes.now }
    requires some_outcome { (o : Outcome) × (report_of report ≡ run.report o) × (report.answers < 4294967296) }
    ensures adds { (o : Outcome) → report_of report ≡ run.report o → Adds out.old (head_text o) out.new }
    ensures short { out.new.at ≤ out.old.at + 69 }
{
    out.put(verdict(report.stop, report.answers, report.parked));
    out.put(stop_word(report.stop));
    // `as`, since the clauses say that it fits: `try_from` has an error that cannot come.
    let answers = report.answers as u32;
    put_numbers(
        out,
        &[
            report.steps,
            answers,
            report.pending,
            report.parked,
            report.cost,
        ],
    );
}

impl Output<'_> {
    // Writes the listing of a refusal, given as anything that turns into its number: its enum is the deck's, on which this crate does not stand.
    pub fn put_refusal<W: Into<u32>>(&mut self, why: W)
        requires { self.old.at + 19 ≤ length self.old.bytes.now }
        ensures { (n : Refusal) → ((number : ℕ) → W.converts why number → number ≡ refusal_number n) → Adds self.old (listing (refused n)) self.new }
    {
        self.put(b"refused ");
        self.put_number(why.into());
        self.put(b"\n");
    }
}
