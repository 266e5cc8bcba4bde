// What the end of an instance does to the queue: success closes its event, failure marks it.
ghost use Rattle.std.specs.Prelude.{◌≡◌};
ghost use Rattle.model.specs.End.{served_by};
ghost use Rattle.state.specs.View.{view_stack};
ghost use Rattle.steps.specs.End.{end_move};

use model::Origin;
use moves::QueueMove;
use state::{Stack, origin};
use trials::changes::Ending;

// The event that the top of a stack serves.
fn served_by(stack: Stack) -> Origin
    ensures { result ≡ served_by (view_stack stack) }
{
    if stack.depth() < 1 {
        return Origin::External(stack.external);
    }
    origin::goal_of(stack.under_top())
}

// What becomes of the event of a stack's top.
pub fn end_move(stack: Stack, ending: Ending) -> QueueMove
    ensures { result ≡ end_move ending (view_stack stack) }
{
    let served = served_by(stack);
    match ending {
        Ending::Success => QueueMove::Close(served),
        Ending::Failure => QueueMove::Mark {
            origin: served,
            plan: stack.top.plan,
        },
    }
}
