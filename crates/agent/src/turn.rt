// The turn of a stack: what its top does, and the step for it.
ghost use Rattle.std.specs.Prelude.{◌≡◌, ◌≤◌};
ghost use Rattle.model.specs.Instance.{try_next};
ghost use Rattle.trials.specs.Trial.{view_trial};
ghost use Rattle.agent.specs.Turnable.{top_after, answer_to, queue_after, Runnable, TriesBranch, Turns};

use crate::ends;
use belief::Beliefs;
use jobs::decision::Decision;
use jobs::{decision, instance};
use library::Branch;
use model::{Answer, Event, Instance, Origin, Status};
use moves::QueueMove;
use state::Stack;
use steps::step::Step;
use trials::changes::Ending;
use trials::tries::{Outcome, Start, Trial};

// A stack that has its turn, with its place, and what the turn is decided by.
#[derive(Clone, Copy)]
pub(crate) struct Turn<'a> {
    pub(crate) library: &'a [u8],
    pub(crate) beliefs: Beliefs,
    pub(crate) place: usize,
    pub(crate) stack: Stack,
    pub(crate) ghost runnable: { Runnable library.now beliefs stack },
}

// ---- What came of a branch

// A branch that a top tried, and what came of it.
#[derive(Clone, Copy)]
struct Tried<'a> {
    top: Instance,
    branch: Branch,
    trial: &'a Trial,
    ghost few: { top.tried ≤ 4 },
}

impl Tried<'_> {
    // The top with one branch more tried.
    fn with_try(&self, status: Status) -> Instance
        ensures { result ≡ try_next status self.now.top }
    {
        let tried = self.top.tried + 1;
        Instance {
            tried,
            status,
            ..self.top
        }
    }

    // The top after it: it misses and stays active, steps with no branch tried, waits for its action's outcome, or is suspended.
    fn top_after(&self) -> Instance
        ensures { result ≡ top_after self.now.top self.now.branch (view_trial self.now.trial.now) }
    {
        match self.trial.outcome {
            Outcome::Missed => self.with_try(Status::Active),
            Outcome::Stepped => instance::stepped_to(self.top, self.branch.next, self.trial.env),
            Outcome::Done(_) => self.with_try(Status::Waiting),
            Outcome::Posted(_) => self.with_try(Status::Suspended),
        }
    }

    // What is answered.
    fn answer_to(&self) -> Answer
        ensures { result ≡ answer_to self.now.top self.now.branch (view_trial self.now.trial.now) }
    {
        let (instance, state, branch) = (self.top.id, self.top.state, self.top.tried);
        match self.trial.outcome {
            Outcome::Missed => Answer::Missed {
                instance,
                state,
                branch,
            },
            Outcome::Stepped => Answer::Stepped {
                instance,
                state,
                branch,
                next: self.branch.next,
            },
            Outcome::Done(literal) => Answer::Done {
                instance,
                state,
                branch,
                literal,
            },
            Outcome::Posted(_) => Answer::Posted {
                instance,
                state,
                branch,
            },
        }
    }

    // What becomes of the queue: a goal that is posted joins it.
    fn queue_after(&self) -> QueueMove
        ensures { result ≡ queue_after self.now.top self.now.branch (view_trial self.now.trial.now) }
    {
        match self.trial.outcome {
            Outcome::Posted(literal) => QueueMove::Enqueue(Event {
                origin: Origin::Goal {
                    instance: self.top.id,
                    state: self.top.state,
                    branch: self.top.tried,
                },
                kind: self.branch.kind,
                literal,
                failed: 0,
            }),
            _ => QueueMove::Keep,
        }
    }
}

// ---- The turn

impl Turn<'_> {
    // The next branch of the top is tried.
    fn attempt(&self, branch: Branch) -> Step
        ensures { TriesBranch self.now.beliefs self.now.place self.now.stack branch result }
    {
        let top = self.stack.top;
        let height = self.stack.depth() + 1;
        let trial = &Start {
            beliefs: &self.beliefs,
            height,
            env: top.env,
        }
        .attempt(branch);
        let tried = Tried { top, branch, trial };
        let next = Stack {
            top: tried.top_after(),
            ..self.stack
        };
        let (answer, queue) = (tried.answer_to(), tried.queue_after());
        ends::ended(self.place, Some(next), answer, trial.altered, queue)
    }

    // What the top does at its turn.
    pub(crate) fn step(&self) -> Step
        ensures { Turns self.now.library.now self.now.beliefs self.now.place self.now.stack result }
    {
        // A `match`: in the place of a decision, which is a value, a step to run would be a function pointer or a boxed closure.
        let decision = decision::next_move(self.library, self.beliefs, self.stack.top);
        match decision {
            Decision::Fail => self.end(Ending::Failure),
            Decision::Succeed => self.end(Ending::Success),
            Decision::Attempt(branch) => self.attempt(branch),
        }
    }
}
