// The end of an instance: its list runs, it is popped, its event is closed or marked, and the stack goes last.
ghost use Rattle.std.specs.Prelude.{◌≡◌, ◌≤◌, IfSome};
ghost use Rattle.library.specs.Layout.{library_of};
ghost use Rattle.model.specs.End.{popped};
ghost use Rattle.state.specs.View.{most_below, view_stack};
ghost use Rattle.agent.specs.Turnable.{placed, left, poster_after, end_by, Ended, Ends};

use crate::turn::Turn;
use jobs::instance;
use library::plan::PlanRef;
use model::{Answer, Instance};
use moves::{Numbering, QueueMove, StackMove};
use state::Stack;
use steps::step::Step;
use steps::{ends, step};
use trials::changes;
use trials::changes::{Altered, Ending};

// The stack at the place goes, and what is left of it is last in turn.
pub(crate) fn ended(
    place: usize,
    next: Option<Stack>,
    answer: Answer,
    altered: Altered,
    queue: QueueMove,
) -> Step
    requires { IfSome next (λ stack. stack.depth ≤ most_below) }
    ensures { Ended place (left next) answer altered queue result }
{
    let (stacks, stack) = match next {
        Some(stack) => (StackMove::Last(place), stack),
        None => (StackMove::Remove(place), step::no_stack()),
    };
    Step {
        answer,
        altered,
        queue,
        stacks,
        stack,
        numbering: Numbering::Keep,
    }
}

// A poster whose goal ended: it steps past it, or stays as it is.
fn poster_after(library: &[u8], ending: Ending, poster: Instance) -> Instance
    ensures { result ≡ poster_after ending (library_of library.now) poster }
{
    match ending {
        Ending::Success => instance::past_branch(library, poster),
        Ending::Failure => poster,
    }
}

// The stack without its top, none where the top was alone.
fn popped(library: &[u8], stack: Stack, ending: Ending) -> Option<Stack>
    ensures shown { left result ≡ popped stack.external (poster_after ending (library_of library.now)) (view_stack stack).below }
    ensures fits { IfSome result (λ next. next.depth ≤ most_below) }
{
    if stack.depth() < 1 {
        return None;
    }
    let after = poster_after(library, ending, stack.under_top());
    Some(stack.popped(after))
}

impl Turn<'_> {
    // The top ends: its list runs, and its event is closed on success, marked on failure.
    pub(crate) fn end(&self, ending: Ending) -> Step
        ensures { Ends self.now.beliefs self.now.place
            (λ s. end_by ending (library_of self.now.library.now) s (placed self.now.place self.now.stack)) result }
    {
        let x = self.stack.top;
        let plan = PlanRef {
            library: self.library,
            number: x.plan as usize,
        };
        let altered = changes::list_run(&plan, ending, x.env, self.beliefs);
        let next = popped(self.library, self.stack, ending);
        let answer = match ending {
            Ending::Success => Answer::Succeeded(x.id),
            Ending::Failure => Answer::Failed(x.id),
        };
        let queue = ends::end_move(self.stack, ending);
        ended(self.place, next, answer, altered, queue)
    }
}
