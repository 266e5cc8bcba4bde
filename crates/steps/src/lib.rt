// Steps: what a call answers and what it does to the state, decided before anything changes; those of a report and of an outcome.
#![tactic(auto)]

use model::Answered;
use state::State;

pub mod answer; // what a call answers
pub mod ends; // what the end of an instance does to the queue
pub mod outcome; // the outcome of an external action
pub mod report; // a report of a device
pub mod step; // what a call decides

// The state after a call, and its result, as the specifications speak of them: code changes the state where it stands.
#[derive(Clone, Copy)]
pub struct Acted {
    pub state: State,
    pub result: Answered,
}
