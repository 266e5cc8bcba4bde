// Taking up a pending event: an instance is made for it, or it is closed.
ghost use Rattle.std.specs.Prelude.{◌≡◌, ◌<◌, ◌≤◌, true};
ghost use Rattle.model.specs.Live.{is_goal};
ghost use Rattle.model.specs.Event.{pushed, close};
ghost use Rattle.situation.specs.FailedSet.{size_of};
ghost use Rattle.state.specs.View.{most_below, view_stack};
ghost use Rattle.agent.specs.TakeUp.{poster_in, HasPlace, opened_step, Drops, MakesFor, Closes, TakesUp};

use belief::Beliefs;
use jobs::instance;
use model::{Answer, Event, Instance, Number, Origin, Status};
use moves::{Numbering, QueueMove, StackMove};
use refusals::Refusal;
use situation::failed;
use state::{Stack, search};
use steps::step;
use steps::step::Step;

// The poster's stack, with the new instance on it; by value, since of a stack in a slice the length of its array is not known.
fn with_pushed(stack: Stack, x: Instance) -> Stack
    requires { stack.depth < most_below }
    ensures { (view_stack result ≡ pushed x (view_stack stack)) × (result.depth ≤ most_below) }
{
    stack.pushed(x)
}

// A pending event that is taken up, with its place in the queue, and what that is decided by.
#[derive(Clone, Copy)]
pub(crate) struct TakeUp<'a> {
    pub(crate) library: &'a [u8],
    pub(crate) beliefs: Beliefs,
    pub(crate) made: Number,
    pub(crate) stacks: &'a [Stack],
    pub(crate) place: usize,
    pub(crate) event: Event,
    pub(crate) ghost has_place: { HasPlace stacks.now event.origin },
}

impl TakeUp<'_> {
    // The place of the stack whose top posted the goal.
    fn poster(&self) -> usize
        requires { is_goal self.now.event.origin ≡ true }
        ensures { result ≡ poster_in self.now.stacks.now self.now.event.origin }
    {
        search::poster_place(self.stacks, self.event.origin).unwrap()
    }

    // ---- Made

    // An instance for an external event, on a new stack last in turn.
    fn open(&self, x: Instance, external: Number) -> Step
        ensures { result ≡ opened_step self.now.beliefs x external }
    {
        let answer = Answer::MadeExternal {
            instance: x.id,
            plan: x.plan,
            external,
        };
        Step {
            stacks: StackMove::Open,
            stack: step::new_stack(external, x),
            numbering: Numbering::Made(x.id),
            ..Step::unchanged(self.beliefs, answer)
        }
    }

    // An instance for the event: for a goal on its poster's stack.
    fn make(&self, x: Instance) -> Step
        ensures { MakesFor self.now.beliefs self.now.made self.now.stacks.now self.now.event.origin x result }
    {
        match self.event.origin {
            Origin::External(external) => self.open(x, external),
            Origin::Goal { instance, .. } => {
                let poster = self.poster();
                let higher = with_pushed(self.stacks[poster], x);
                let answer = Answer::MadeGoal {
                    instance: x.id,
                    plan: x.plan,
                    poster: instance,
                };
                Step {
                    stacks: StackMove::Replace(poster),
                    stack: higher,
                    numbering: Numbering::Made(x.id),
                    ..Step::unchanged(self.beliefs, answer)
                }
            }
        }
    }

    // ---- Closed

    // An external event for which no plan applies is dropped.
    fn drop_event(&self, external: Number) -> Step
        ensures { Drops self.now.beliefs self.now.place external (size_of self.now.event.failed) result }
    {
        let failures = failed::size(self.event.failed);
        Step {
            queue: QueueMove::Remove(self.place),
            ..Step::unchanged(self.beliefs, Answer::Dropped { external, failures })
        }
    }

    // The event leaves the queue: a goal for which no plan applies is unmet, and its poster is active again.
    fn close(&self) -> Step
        ensures { Closes self.now.beliefs self.now.stacks.now
            (λ s. close s (record { place = self.now.place; it = self.now.event }) self.now.event.origin) result }
    {
        match self.event.origin {
            Origin::External(external) => self.drop_event(external),
            Origin::Goal {
                instance,
                state,
                branch,
            } => {
                let poster = self.poster();
                let stack = self.stacks[poster];
                let failures = failed::size(self.event.failed);
                let answer = Answer::Unmet {
                    instance,
                    state,
                    branch,
                    failures,
                };
                let top = instance::awoken(stack.top);
                Step {
                    queue: QueueMove::Remove(self.place),
                    stacks: StackMove::Replace(poster),
                    stack: Stack { top, ..stack },
                    ..Step::unchanged(self.beliefs, answer)
                }
            }
        }
    }

    // ---- Taken up

    // By the first applicable plan an instance is made, else the event is closed; refused where no instance number is left.
    pub(crate) fn step(&self) -> Step
        ensures { TakesUp self.now.library.now self.now.beliefs self.now.made self.now.stacks.now self.now.place self.now.event result }
    {
        let event = self.event;
        let b = self.beliefs;
        let selected = situation::choose_plan(
            self.library,
            b,
            event.kind,
            event.literal,
            event.failed,
        );
        let Some(plan) = selected.choice else {
            return self.close();
        };
        let Some(id) = self.made.checked_add(1) else {
            return Step::unchanged(b, Answer::Refused(Refusal::NumbersSpent as u16));
        };
        self.make(Instance {
            id,
            plan,
            env: selected.env,
            state: 0,
            tried: 0,
            status: Status::Active,
        })
    }
}
