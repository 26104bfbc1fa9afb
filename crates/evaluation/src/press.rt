// One press, one step (document 02, U14).
ghost use Rattle.std.specs.Prelude.{◌≡◌, ◌≤◌, length};
ghost use Rattle.rules.specs.Press.{PressedOn, PressedWith, displayed};
ghost use Rattle.report.specs.Reports.{counted_of};
ghost use Rattle.top_level.specs.Top.{SomeOpening, PressesStored};
ghost use Rattle.evaluation.specs.Results.{slices};
ghost use Rattle.evaluation.specs.Displays.{finished_press, pressed_of, advanced_of, display_of};

use crate::carry::{carried, resume};
use clauses::Clauses;
use clauses::by_predicate::Index;
use deck::Refusal;
use report::{Advance, Pressed, Stop};
use resolvents::workspace::Workspace;
use stored::OpenCounts;
use top_level::Start;

// One step of level 0 from goals that are stored as a run holds them.
fn step_from_goals(
    clauses: &Clauses,
    start: Start,
    answers: &mut [u16],
    store: &mut [u16],
    scratch: &mut [u16],
) -> Pressed
    requires opening { SomeOpening clauses.now.deck.words.now store.old start.parts.parked start.parts.held }
    requires short_store { length store.old ≤ 65535 }
    requires room { 8192 ≤ length scratch.old }
    ensures { PressesStored clauses.now.deck.words.now answers.old store.old start.parts.parked start.parts.held start.budget answers.new store.new result }
{
    let mut work = Workspace::new(scratch);
    top_level::press(clauses, start, answers, store, &mut work)
}

// A press on a finished query, with so many goals parked.
fn finished(parked: u32) -> Pressed
    ensures { result ≡ finished_press parked }
{
    Pressed {
        advance: Advance::Prevented(Stop::Finished),
        steps: 0,
        cost: 0,
        answers: 0,
        pending: 0,
        parked,
    }
}

// THE PUBLIC CALL on plain parameters: one step of level 0, with all of its inner levels, from the goals that the store begins with. Refusals as in a
// run that carries on, 15 and 16 of the member's list among them. A press that is cut short leaves the goals as found; on a finished query it changes nothing.
pub fn press(
    deck: &[u16],
    pending: u64,
    parked: u64,
    terms: u64,
    bars: &[u16],
    budget: u32,
    answers: &mut [u16],
    store: &mut [u16],
    scratch: &mut [u16],
) -> Result<Pressed, Refusal>
    ensures { PressedOn deck.now pending parked terms bars.now budget (slices answers.old store.old scratch.old) (pressed_of result) (slices answers.new store.new scratch.new) }
{
    let mut table = [0; 4096];
    let mut index = Index::blank();
    let counts = OpenCounts {
        pending,
        parked,
        terms,
    };
    let open = carried(deck, counts, bars, store, scratch, &mut table, &mut index)?;
    if pending == 0 {
        return Ok(finished(parked as u32));
    }
    let start = resume(open.held, open.end, budget, store);
    Ok(step_from_goals(&open.clauses, start, answers, store, scratch))
}

// The display's record: the counts over all presses so far, and how many goals are pending and parked.
#[derive(Clone, Copy, Debug, PartialEq, Eq)]
pub struct Display {
    pub steps: u64,
    pub cost: u64,
    pub answers: u64,
    pub pending: u64,
    pub parked: u64,
}

impl Display {
    // After a press. The counts stay at their greatest value rather than wrap.
    fn after(self, pressed: Pressed) -> Display
        ensures { display_of result ≡ displayed (display_of self) (counted_of pressed) }
    {
        Display {
            steps: self.steps.saturating_add(u64::from(pressed.steps)),
            cost: self.cost.saturating_add(u64::from(pressed.cost)),
            answers: self.answers.saturating_add(pressed.answers),
            pending: u64::from(pressed.pending),
            parked: u64::from(pressed.parked),
        }
    }
}

// THE PUBLIC CALL with a display, which is lent and comes back changed; its pending and parked serve as the two goal counts.
pub fn press_display(
    deck: &[u16],
    terms: u64,
    bars: &[u16],
    budget: u32,
    display: &mut Display,
    answers: &mut [u16],
    store: &mut [u16],
    scratch: &mut [u16],
) -> Result<Advance, Refusal>
    ensures { PressedWith deck.now terms bars.now budget (slices answers.old store.old scratch.old) (display_of display.old) (advanced_of result) (slices answers.new store.new scratch.new) (display_of display.new) }
{
    let Display {
        pending,
        parked,
        ..
    } = *display;
    let pressed = press(
        deck, pending, parked, terms, bars, budget, answers, store, scratch,
    )?;
    *display = display.after(pressed);
    Ok(pressed.advance)
}
