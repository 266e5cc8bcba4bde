// The agent's state by value: arrays with counts. What they mean is the view of specs/View.
#![tactic(auto)]

use belief::Beliefs;
use model::{Event, Instance, Number};

pub mod origin; // what events are told apart by
pub mod queue; // the event queue
pub mod search; // who serves what, and what comes next
pub mod stacks; // the intention stacks

// At most 32 external events, and a goal for each of at most 56 suspended instances.
pub const MOST_QUEUED: usize = 88;

pub const MOST_STACKS: usize = 8;
// The most instances below the top of a stack.
pub const MOST_BELOW: usize = 7;

// A stack is never empty. The first `depth` of `below` are the instances under the top, the bottom first.
// An array with a count: memory is fixed, and document 01 has a state by value, which no ArrayVec can be copied in.
#[derive(Clone, Copy)]
pub struct Stack {
    pub top: Instance,
    pub below: [Instance; MOST_BELOW],
    pub depth: usize,
    pub external: Number,
}

// The first `queued` events are the queue, the first `stacked` stacks the stacks in turn order;
// places past a count are no part of the state.
// Arrays with counts: memory is fixed, and document 01 has a state by value, which no ArrayVec can be copied in.
#[derive(Clone, Copy)]
pub struct State {
    pub beliefs: Beliefs,
    pub queue: [Event; MOST_QUEUED],
    pub queued: usize,
    pub stacks: [Stack; MOST_STACKS],
    pub stacked: usize,
    pub taken: Number,
    pub made: Number,
}
