// Who serves what, and what comes next: each search answers a place, or that there is none.
ghost use Rattle.std.specs.Prelude.{◌≡◌, ◌||◌, map, length, take, ltb, position};
ghost use Rattle.std.specs.List.{list_any};
ghost use Rattle.model.specs.Live.{is_goal, jobs_of, live, serves, is_ready, is_poster};
ghost use Rattle.model.specs.State.{most_stacks};
ghost use Rattle.model.specs.Turn.{is_running};
ghost use Rattle.model.specs.Outcome.{is_awaiting};
ghost use Rattle.state.specs.View.{depth_of, view_stack};
ghost use Rattle.state.specs.Search.{has_goal, is_asleep};

use crate::origin::{goal_of, is_goal};
use crate::{MOST_STACKS, Stack};
use model::{Event, Number, Origin, Status};

// Whether one of the instances below the top has posted this goal.
#[tactic(auto, unfolding(model::specs::Live::same_origin))]
fn has_posted(stack: &Stack, origin: Origin) -> bool
    ensures { result ≡ list_any (has_goal origin) (take (depth_of stack.now) stack.now.below) }
{
    stack.beneath().iter().any(|x| origin == goal_of(*x))
}

// Whether an instance of the stack serves the event of this origin.
fn is_served_by(stack: &Stack, origin: Origin) -> bool
    ensures { result ≡ list_any (serves origin) (jobs_of (view_stack stack.now)) }
{
    origin == Origin::External(stack.external) || has_posted(stack, origin)
}

// Whether a pending event may be taken up: an external one needs room for a new stack.
fn has_room(origin: Origin, stacked: usize) -> bool
    ensures { result ≡ (is_goal origin || ltb stacked most_stacks) }
{
    is_goal(origin) || stacked < MOST_STACKS
}

// Whether the event is pending and may be taken up.
fn is_ready(stacks: &[Stack], event: Event) -> bool
    ensures { result ≡ is_ready (live (map view_stack stacks.now)) (length stacks.now) event }
{
    let origin = event.origin;
    !stacks.iter().any(|stack| is_served_by(stack, origin)) && has_room(origin, stacks.len())
}

// The first pending event that may be taken up.
pub fn next_event(queue: &[Event], stacks: &[Stack]) -> Option<usize>
    ensures { result ≡ position (is_ready (live (map view_stack stacks.now)) (length stacks.now)) queue.now }
{
    queue.iter().position(|event| is_ready(stacks, *event))
}

// The first stack whose top is active.
pub fn next_stack(stacks: &[Stack]) -> Option<usize>
    ensures { result ≡ position is_running (map view_stack stacks.now) }
{
    stacks
        .iter()
        .position(|stack| stack.top.status == Status::Active)
}

// Whether some top is suspended.
pub fn has_sleeper(stacks: &[Stack]) -> bool
    ensures { result ≡ list_any is_asleep (map view_stack stacks.now) }
{
    stacks
        .iter()
        .any(|stack| stack.top.status == Status::Suspended)
}

// How many instances of the stacks are live.
pub fn live_count(stacks: &[Stack]) -> usize
    ensures { result ≡ length (live (map view_stack stacks.now)) }
{
    let mut found = stacks.len();
    for stack in stacks {
        found += stack.depth();
    }
    found
}

// The stack whose top has this id and waits for an outcome.
pub fn waiting_place(stacks: &[Stack], id: Number) -> Option<usize>
    ensures { result ≡ position (is_awaiting id) (map view_stack stacks.now) }
{
    stacks.iter().position(|stack| id == stack.top.id && stack.top.status == Status::Waiting)
}

// The stack whose top posted this goal.
#[tactic(auto, unfolding(model::specs::Live::same_origin))]
pub fn poster_place(stacks: &[Stack], origin: Origin) -> Option<usize>
    ensures { result ≡ position (is_poster origin) (map view_stack stacks.now) }
{
    stacks.iter().position(|stack| stack.top.status == Status::Suspended
        && origin == goal_of(stack.top))
}
