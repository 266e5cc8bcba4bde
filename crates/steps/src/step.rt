// A step: what a call answers and what it does to the state, decided before anything changes.
ghost use Rattle.std.specs.Prelude.{◌≡◌};
ghost use Rattle.steps.specs.Step.{opened_stack, blank_stack, result_of, rest_step, state_after};

use belief::Beliefs;
use model::{Answer, Answered, Instance, Number, Status};
use moves::{Numbering, QueueMove, StackMove};
use state::{MOST_BELOW, Stack, State};
use trials::changes::Altered;

// The answer, the belief table after the changes, the moves of queue and stacks with the stack that is put, and a new number.
#[derive(Clone, Copy)]
pub struct Step {
    pub answer: Answer,
    pub altered: Altered,
    pub queue: QueueMove,
    pub stacks: StackMove,
    pub stack: Stack,
    pub numbering: Numbering,
}

// ---- The stack of a step

// A stack of one instance, for an external event.
pub fn new_stack(external: Number, x: Instance) -> Stack
    ensures { result ≡ opened_stack external x }
{
    Stack {
        top: x,
        below: [x; MOST_BELOW],
        depth: 0,
        external,
    }
}

// What stands in a step that puts no stack.
pub fn no_stack() -> Stack
    ensures { result ≡ blank_stack }
{
    let nobody = Instance {
        id: 0,
        plan: 0,
        env: literal::Env::empty(),
        state: 0,
        tried: 0,
        status: Status::Active,
    };
    new_stack(0, nobody)
}

// ---- A step

impl Step {
    // A step that changes nothing.
    pub fn unchanged(b: Beliefs, answer: Answer) -> Step
        ensures { result ≡ rest_step b answer }
    {
        Step {
            answer,
            altered: Altered::untouched(b),
            queue: QueueMove::Keep,
            stacks: StackMove::Keep,
            stack: no_stack(),
            numbering: Numbering::Keep,
        }
    }

    // What it answers, with the changes.
    pub fn result(&self) -> Answered
        ensures { result ≡ result_of self.now }
    {
        Answered {
            answer: self.answer,
            changes: self.altered.changes,
            count: self.altered.count,
        }
    }

    // ---- The state after a step

    // Makes the step on a state: the queue, the stacks, the numbers and the table, each by its move.
    pub fn apply(&self, s: &mut State)
        ensures { s.new ≡ state_after s.old self.now }
    {
        self.queue.apply(s);
        self.stacks.apply(s, self.stack);
        self.numbering.apply(s);
        s.beliefs = self.altered.table;
    }
}
