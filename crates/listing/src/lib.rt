// The bytes of the printed listing (document 01, "The printed listing"), and the words of the program's inputs.
#![tactic(auto)]

ghost use Rattle.std.specs.Prelude.{◌≡◌, ◌+◌, ◌*◌, ◌≤◌, length};
ghost use Rattle.rules.specs.Evaluation.{Outcome};
ghost use Rattle.rules.specs.Refusals.{accepted};
ghost use Rattle.rules.specs.Listing.{listing};
ghost use Rattle.listing.specs.Put.{Adds};
ghost use Rattle.listing.specs.Shown.{Shown};

use crate::output::Output;
use report::Report;

mod answers;
pub mod input;
mod lines;
mod numbers;
pub mod output;
pub mod terms;

impl Output<'_> {
    // Writes the whole listing of an accepted run.
    pub fn put_listing(&mut self, report: Report, answers: &[u16], symbols: &[u16])
        requires room { (length answers.now ≤ 65535) × (self.old.at + (69 + 8 * length answers.now) ≤ length self.old.bytes.now) }
        requires shown { (o : Outcome) × Shown o report answers.now symbols.now }
        ensures adds { (o : Outcome) → Shown o report answers.now symbols.now → Adds self.old (listing (accepted o)) self.new }
        ensures short { self.new.at ≤ self.old.at + (69 + 8 * length answers.now) }
    {
        lines::put_head(self, report);
        answers::put_answers(self, answers, report.answers, symbols);
    }
}
