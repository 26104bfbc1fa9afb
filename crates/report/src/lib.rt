// What an accepted run and an accepted press return.
#![tactic(auto)]

// Why a run stops.
#[derive(Clone, Copy, Debug, PartialEq, Eq)]
pub enum Stop {
    Finished,
    Budget,
    Answers,
    Store,
}

// The stop, the steps used over all levels and their cost, and the numbers of answers, pending and parked goals.
#[derive(Clone, Copy, Debug, PartialEq, Eq)]
pub struct Report {
    pub stop: Stop,
    pub steps: u32,
    pub cost: u32,
    pub answers: u64,
    pub pending: u32,
    pub parked: u32,
}

// What a press comes to: a step was taken, or the stop that prevented it.
#[derive(Clone, Copy, Debug, PartialEq, Eq)]
pub enum Advance {
    Stepped,
    Prevented(Stop),
}

// What a press came to, its steps over all levels and their cost, and the numbers of answers found and of pending and parked goals after it.
#[derive(Clone, Copy, Debug, PartialEq, Eq)]
pub struct Pressed {
    pub advance: Advance,
    pub steps: u32,
    pub cost: u32,
    pub answers: u64,
    pub pending: u32,
    pub parked: u32,
}

// The number of a stop: 0 finished, 1 budget, 2 answers, 3 store.
impl From<Stop> for u32 {
    ghost use Rattle.std.specs.Prelude.{◌≡◌};
    ghost use Rattle.rules.specs.Evaluation.{stop_number};
    ghost use Rattle.report.specs.Reports.{stop_of};

    ghost from_gives = { λ stop number. number ≡ stop_number (stop_of stop) };

    fn from(stop: Stop) -> u32 {
        match stop {
            Stop::Finished => 0,
            Stop::Budget => 1,
            Stop::Answers => 2,
            Stop::Store => 3,
        }
    }
}
