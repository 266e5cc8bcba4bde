// A library's bytes: reading them, and the parts of a plan. Every reader is total.
#![tactic(auto)]

use literal::Literal;

pub mod bytes; // bytes.rt: numbers, literals, actions and branches at an offset
pub mod contents; // contents.rt: the numbers of plans and beliefs, the beliefs
pub mod kinds; // kinds.rt: what the numbers of kinds name
pub mod plan; // plan.rt: a plan, its entry and its parts

// The most plans of a library.
pub const MOST_PLANS: u16 = 32;

// An action of a success or failure list: its kind is that of a `Deed`.
// The kind is a number, as a branch's is: any 16 bits can stand there, so a narrower type would ask more of callers.
#[derive(Clone, Copy)]
pub struct Action {
    pub kind: u16,
    pub literal: Literal,
}

// A branch: its kind is that of a `Deed`, a number as an action's; then the state that it leads to.
#[derive(Clone, Copy)]
pub struct Branch {
    pub kind: u16,
    pub literal: Literal,
    pub next: u16,
}
