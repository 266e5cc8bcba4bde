// The rules for each stack.
ghost use Rattle.std.specs.Prelude.{◌≡◌, ◌&&◌, leb};
ghost use Rattle.std.specs.List.{list_all};
ghost use Rattle.model.specs.Instance.{is_suspended};
ghost use Rattle.model.specs.WellFormed.{is_stack};
ghost use Rattle.state.specs.View.{most_below, view_stack};

use model::{Instance, Status};
use state::{MOST_BELOW, Stack};

fn are_suspended(instances: &[Instance]) -> bool
    ensures { result ≡ list_all (λ x. is_suspended x.status) instances.now }
{
    instances.iter().all(|x| x.status == Status::Suspended)
}

// The count is within its array; all instances below the top are suspended, and of a full stack the top is not.
fn is_stack(stack: &Stack) -> bool
    ensures { result ≡ (leb stack.now.depth most_below && is_stack (view_stack stack.now)) }
{
    let depth = stack.depth;
    if MOST_BELOW < depth {
        return false;
    }
    are_suspended(stack.beneath()) && (depth < MOST_BELOW || stack.top.status != Status::Suspended)
}

pub(crate) fn are_stacks(stacks: &[Stack]) -> bool
    ensures { result ≡ list_all (λ stack. leb stack.depth most_below && is_stack (view_stack stack)) stacks.now }
{
    stacks.iter().all(|stack| is_stack(stack))
}
