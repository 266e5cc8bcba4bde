// The agent: report, cycle and outcome, and a chunk of the journal.
#![tactic(auto)]

use load::Agent;
use model::Answered;

pub mod calls; // report, cycle and outcome
mod cycle; // one cycle
mod ends; // success and failure
mod event; // taking up a pending event
pub mod feed; // a chunk of the journal
mod look; // what a line gives, before anything moves
mod respond; // what a line or a call gives
mod turn; // the turn of a stack

// What a call gives: the agent after it, and its result.
#[derive(Clone, Copy)]
pub struct Replied {
    pub agent: Agent,
    pub result: Answered,
}
