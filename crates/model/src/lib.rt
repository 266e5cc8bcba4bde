// The agent's data: events, instances and what a call answers. What the calls do is in specs/.
#![tactic(auto)]

ghost use Rattle.std.specs.Prelude.{◌≡◌, leb};
ghost use Rattle.model.specs.Report.{told_kind};

use belief::Change;
use library::kinds::Trigger;
use literal::{Env, Literal};

// The number of an external event or of an instance, from 1 on.
pub type Number = u32;

// The largest of them.
pub const MOST_NUMBER: Number = 4294967295;

// At most this many external events are queued.
pub const MOST_EXTERNAL: usize = 32;

// A success or failure list has at most this many actions.
pub const MOST_ACTIONS: usize = 4;

// How many belief changes one call can make: two for each action of a list, since an add takes out its opposite.
pub const MOST_CHANGES: usize = 8;

// What an event is told apart by: an external number, or a goal's instance, state and branch.
#[derive(Clone, Copy, PartialEq, Eq)]
pub enum Origin {
    External(Number),
    Goal {
        instance: Number,
        state: u16,
        branch: u16,
    },
}

// Whether it is the kind of an event that a device reports: a goal is an event of the agent's own.
pub fn is_reported(kind: u16) -> bool
    ensures { result ≡ leb kind told_kind }
{
    matches!(
        Trigger::try_from(kind),
        Ok(Trigger::Added | Trigger::Removed | Trigger::Told)
    )
}

// An event: its kind is that of a `Trigger`; the plans that failed for it are the bits of `failed`.
// The kind is a number: any 16 bits can be reported or stand in a state, so a narrower type would ask more of callers.
#[derive(Clone, Copy)]
pub struct Event {
    pub origin: Origin,
    pub kind: u16,
    pub literal: Literal,
    pub failed: u32,
}

// An instance runs, waits for an outcome, or is suspended on a goal.
#[derive(Clone, Copy, PartialEq, Eq)]
pub enum Status {
    Active,
    Waiting,
    Suspended,
}

// An instance of a plan: its state, and how many branches it has tried there.
// While it waits or is suspended its branch is the last one tried.
#[derive(Clone, Copy)]
pub struct Instance {
    pub id: Number,
    pub plan: u16,
    pub env: Env,
    pub state: u16,
    pub tried: u16,
    pub status: Status,
}

// What a call answers: a case for each letter of the journal, two for M.
#[derive(Clone, Copy)]
pub enum Answer {
    Taken(Number),
    Idle,
    Dropped {
        external: Number,
        failures: u32,
    },
    Unmet {
        instance: Number,
        state: u16,
        branch: u16,
        failures: u32,
    },
    MadeExternal {
        instance: Number,
        plan: u16,
        external: Number,
    },
    MadeGoal {
        instance: Number,
        plan: u16,
        poster: Number,
    },
    Stepped {
        instance: Number,
        state: u16,
        branch: u16,
        next: u16,
    },
    Missed {
        instance: Number,
        state: u16,
        branch: u16,
    },
    Done {
        instance: Number,
        state: u16,
        branch: u16,
        literal: Literal,
    },
    Posted {
        instance: Number,
        state: u16,
        branch: u16,
    },
    Succeeded(Number),
    Failed(Number),
    // By number, as it is printed; 0 is a line that is no call. A `Refusal` here would ask more of who prints a result.
    Refused(u16),
}

// A result: the answer, and beside it the belief changes that took effect, in order, the first `count` of the array.
// An array with its count: memory is fixed, and it is a required form (docs/DECISIONS.md, form 5).
#[derive(Clone, Copy)]
pub struct Answered {
    pub answer: Answer,
    pub changes: [Change; MOST_CHANGES],
    pub count: usize,
}
