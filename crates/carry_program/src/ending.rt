// What is printed and kept of a run that was not refused.
ghost use Rattle.std.specs.Prelude.{◌≤◌, length};
ghost use Rattle.carry_program.specs.Finished.{SomeFinished, FinishedPrinted, FinishedKept};

use crate::output::Outputs;
use deck::opened::Opened;
use listing::output::Output;
use program::lists::Lists;
use program_parts::put_run;
use report::Report;
use stored::OpenCounts;

// The report of such a run, and the lists that it was lent.
#[derive(Drop)]
pub struct Ending<'a> {
    pub report: Report,
    pub deck: Opened<'a>,
    pub terms: u64,
    pub lists: &'a Lists,
    ghost small: { (length lists.now.answers ≤ 8192) × (length lists.now.store ≤ 16384) },
}

impl Ending<'_> {
    // The listing, and the goals left.
    pub fn put(&self, out: &mut [u8; 65605], left: &mut [u8; 32792]) -> Outputs
        requires { SomeFinished self.now.deck.words.now self.now.terms self.now.lists.now.answers self.now.lists.now.store self.now.report }
        ensures { FinishedPrinted self.now.deck.words.now self.now.terms self.now.lists.now.answers self.now.lists.now.store self.now.report out.old left.old result.listing result.goals out.new left.new }
    {
        let listing = put_run(self.report, &self.lists.answers, self.deck.symbols(), out);
        let goals = self.put_goals(left);
        Outputs { listing, goals }
    }

    // The goals left as a file: their two counts, the number of answer terms, and their words, which the store begins with.
    fn put_goals(&self, left: &mut [u8; 32792]) -> Option<usize>
        requires { SomeFinished self.now.deck.words.now self.now.terms self.now.lists.now.answers self.now.lists.now.store self.now.report }
        ensures { FinishedKept self.now.deck.words.now self.now.terms self.now.lists.now.answers self.now.lists.now.store self.now.report left.old result left.new }
    {
        let store = &self.lists.store;
        let pending = u64::from(self.report.pending);
        let parked = u64::from(self.report.parked);
        let counts = OpenCounts {
            pending,
            parked,
            terms: self.terms,
        };
        let (_, end) = stored::deck_goals(&self.deck, store, counts)?;
        let mut out = Output::new(left);
        out.put(&pending.to_le_bytes());
        out.put(&parked.to_le_bytes());
        out.put(&self.terms.to_le_bytes());
        out.put_words(&store[..end]);
        Some(out.at)
    }
}
