// The engine for C and Rust (include/leads.h). Each call returns 0, or the refusal's number with nothing touched; reading a text tells the place of 10, and leaves the lent list free after 1 to 5.
#![tactic(auto)]

ghost use Rattle.std.specs.Prelude.{◌≡◌};
ghost use Rattle.rules.specs.Refusals.{checked_number};
ghost use Rattle.rules.specs.Decks.{open_deck, check_query};
ghost use Rattle.evaluation.specs.Results.{result_of, slices};
ghost use Rattle.leads_c.specs.Calls.{Called, CalledOn, PreviewCalled, TellsRun, numbers};
ghost use Rattle.leads_c.specs.TextCalls.{ReadCalled, WriteCalled};
ghost use Rattle.leads_c.specs.DrillCalls.{DrillCalled};
ghost use Rattle.leads_c.specs.LevelCalls.{LevelsCalled, circular_number};
ghost use Rattle.leads_c.specs.MeanCalls.{MeanCalled, mean_of};
ghost use Rattle.report.specs.Reports.{advance_of};
ghost use Rattle.leads_c.specs.PressCalls.{PressCalled, outcome_number, record_of};

use deck::Refusal;
use evaluation::press::{Display, press_display};
use reading::ReadError;
use report::{Advance, Report};

#[unsafe(no_mangle)]
pub extern "C" fn leads_open(deck: &[u16]) -> u32
    ensures { result ≡ checked_number (open_deck deck.now) }
{
    deck::number(deck::open(deck))
}

#[unsafe(no_mangle)]
pub extern "C" fn leads_check(deck: &[u16], query: &[u16]) -> u32
    ensures { result ≡ checked_number (check_query deck.now query.now) }
{
    deck::number(loose::check_query(deck, query))
}

#[unsafe(no_mangle)]
pub extern "C" fn leads_run(
    deck: &[u16],
    query: &[u16],
    bars: &[u16],
    budget: u32,
    answers: &mut [u16],
    store: &mut [u16],
    scratch: &mut [u16],
    stop: &mut u32,
    steps: &mut u32,
    cost: &mut u32,
    answer_count: &mut u64,
    pending: &mut u32,
    parked: &mut u32,
) -> u32
    ensures { Called deck.now query.now bars.now budget (slices answers.old store.old scratch.old) (numbers stop.old steps.old cost.old answer_count.old pending.old parked.old) result (slices answers.new store.new scratch.new) (numbers stop.new steps.new cost.new answer_count.new pending.new parked.new) }
{
    let ran = evaluation::run(deck, query, bars, budget, answers, store, scratch);
    told(ran, stop, steps, cost, answer_count, pending, parked)
}

#[unsafe(no_mangle)]
pub extern "C" fn leads_continue(
    deck: &[u16],
    pending: u64,
    parked: u64,
    terms: u64,
    bars: &[u16],
    budget: u32,
    answers: &mut [u16],
    store: &mut [u16],
    scratch: &mut [u16],
    stop: &mut u32,
    steps: &mut u32,
    cost: &mut u32,
    answer_count: &mut u64,
    pending_after: &mut u32,
    parked_after: &mut u32,
) -> u32
    ensures { CalledOn deck.now pending parked terms bars.now budget (slices answers.old store.old scratch.old) (numbers stop.old steps.old cost.old answer_count.old pending_after.old parked_after.old) result (slices answers.new store.new scratch.new) (numbers stop.new steps.new cost.new answer_count.new pending_after.new parked_after.new) }
{
    let ran = evaluation::carry::carry_on(
        deck, pending, parked, terms, bars, budget, answers, store, scratch,
    );
    told(
        ran,
        stop,
        steps,
        cost,
        answer_count,
        pending_after,
        parked_after,
    )
}

#[unsafe(no_mangle)]
pub extern "C" fn leads_preview(
    deck: &[u16],
    clause: &[u16],
    query: &[u16],
    bars: &[u16],
    budget: u32,
    answers: &mut [u16],
    store: &mut [u16],
    scratch: &mut [u16],
    stop: &mut u32,
    steps: &mut u32,
    cost: &mut u32,
    answer_count: &mut u64,
    pending: &mut u32,
    parked: &mut u32,
) -> u32
    ensures { PreviewCalled deck.now clause.now query.now bars.now budget (slices answers.old store.old scratch.old) (numbers stop.old steps.old cost.old answer_count.old pending.old parked.old) result (slices answers.new store.new scratch.new) (numbers stop.new steps.new cost.new answer_count.new pending.new parked.new) }
{
    let ran = evaluation::preview::preview(
        deck, clause, query, bars, budget, answers, store, scratch,
    );
    told(ran, stop, steps, cost, answer_count, pending, parked)
}

// The number of a refusal, with the numbers as they were; or 0, with the report's. C passes a pointer for each, so they are no struct.
fn told(
    ran: Result<Report, Refusal>,
    stop: &mut u32,
    steps: &mut u32,
    cost: &mut u32,
    answer_count: &mut u64,
    pending: &mut u32,
    parked: &mut u32,
) -> u32
    ensures { TellsRun (result_of ran) (numbers stop.old steps.old cost.old answer_count.old pending.old parked.old) result (numbers stop.new steps.new cost.new answer_count.new pending.new parked.new) }
{
    match ran {
        Ok(report) => {
            *stop = u32::from(report.stop);
            *steps = report.steps;
            *cost = report.cost;
            *answer_count = report.answers;
            *pending = report.pending;
            *parked = report.parked;
            0
        }
        Err(why) => u32::from(why),
    }
}

// The record of a display is five pointers here, since an exported call takes no struct.
#[unsafe(no_mangle)]
pub extern "C" fn leads_press(
    deck: &[u16],
    terms: u64,
    bars: &[u16],
    budget: u32,
    answers: &mut [u16],
    store: &mut [u16],
    scratch: &mut [u16],
    outcome: &mut u32,
    steps: &mut u64,
    cost: &mut u64,
    answer_count: &mut u64,
    pending: &mut u64,
    parked: &mut u64,
) -> u32
    ensures { PressCalled deck.now terms bars.now budget (slices answers.old store.old scratch.old) (record_of steps.old cost.old answer_count.old pending.old parked.old) outcome.old result (slices answers.new store.new scratch.new) (record_of steps.new cost.new answer_count.new pending.new parked.new) outcome.new }
{
    let mut display = Display {
        steps: *steps,
        cost: *cost,
        answers: *answer_count,
        pending: *pending,
        parked: *parked,
    };
    let pressed = press_display(
        deck,
        terms,
        bars,
        budget,
        &mut display,
        answers,
        store,
        scratch,
    );
    *steps = display.steps;
    *cost = display.cost;
    *answer_count = display.answers;
    *pending = display.pending;
    *parked = display.parked;
    match pressed {
        Ok(advance) => {
            *outcome = number_of(advance);
            0
        }
        Err(why) => u32::from(why),
    }
}

// 4 for a step that was taken, or the stop's number.
fn number_of(advance: Advance) -> u32
    ensures { result ≡ outcome_number (advance_of advance) }
{
    match advance {
        Advance::Stepped => 4,
        Advance::Prevented(stop) => u32::from(stop),
    }
}

#[unsafe(no_mangle)]
pub extern "C" fn leads_read_text(
    text: &[u8],
    deck: &mut [u16],
    deck_words: &mut usize,
    place: &mut usize,
) -> u32
    ensures { ReadCalled text.now deck.old deck_words.old place.old result deck.new deck_words.new place.new }
{
    match reading::read_text(text, deck) {
        Ok(n) => {
            *deck_words = n;
            0
        }
        Err(ReadError::Unreadable(at)) => {
            *place = at;
            u32::from(Refusal::Text)
        }
        Err(ReadError::Refused(why)) => u32::from(why),
    }
}

#[unsafe(no_mangle)]
pub extern "C" fn leads_write_text(deck: &[u16], text: &mut [u8], text_bytes: &mut usize) -> u32
    ensures { WriteCalled deck.now text.old text_bytes.old result text.new text_bytes.new }
{
    match writing::write_text(deck, text) {
        Ok(n) => {
            *text_bytes = n;
            0
        }
        Err(why) => u32::from(why),
    }
}

#[unsafe(no_mangle)]
pub extern "C" fn leads_drill(
    deck: &[u16],
    n: u32,
    after: &[u16],
    list: &mut [u16],
    count: &mut u64,
) -> u32
    ensures { DrillCalled deck.now n after.now list.old count.old result list.new count.new }
{
    match drill::drill(deck, n, after, list) {
        Ok(terms) => {
            // `as`, since `u64` has no `From` of `usize`.
            *count = terms as u64;
            0
        }
        Err(why) => u32::from(why),
    }
}

#[unsafe(no_mangle)]
pub extern "C" fn leads_levels(deck: &[u16], levels: &mut [u16], circular: &mut u32) -> u32
    ensures { LevelsCalled deck.now levels.old circular.old result levels.new circular.new }
{
    match ranks::levels(deck, levels) {
        Ok(named) => {
            *circular = number(named);
            0
        }
        Err(why) => u32::from(why),
    }
}

// The predicate that is named as a number: one more than its own, 0 where none is.
fn number(named: Option<u16>) -> u32
    ensures { result ≡ circular_number named }
{
    match named {
        Some(p) => 1 + u32::from(p),
        None => 0,
    }
}

#[unsafe(no_mangle)]
pub extern "C" fn leads_mean(
    deck: &[u16],
    list: &[u16],
    count: u64,
    terms: u64,
    column: u64,
    sum: &mut i64,
    whole: &mut i64,
    remainder: &mut u64,
) -> u32
    ensures { MeanCalled deck.now list.now count terms column (mean_of sum.old whole.old remainder.old) result (mean_of sum.new whole.new remainder.new) }
{
    match column::column(deck, list, count, terms, column) {
        Ok(mean) => {
            *sum = mean.sum;
            *whole = mean.whole;
            *remainder = mean.remainder;
            0
        }
        Err(why) => u32::from(why),
    }
}
