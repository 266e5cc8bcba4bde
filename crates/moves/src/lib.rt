// What a call does to the event queue and to the stacks, told before it is done.
#![tactic(auto)]

ghost use Rattle.std.specs.Prelude.{◌≡◌, position};
ghost use Rattle.model.specs.Live.{is_of};
ghost use Rattle.moves.specs.Moves.{requeue, restack, renumber};

use model::{Event, Number, Origin};
use state::{Stack, State, queue};

// The queue keeps its events; takes one more; loses the one at a place or of an origin; or a plan has failed for the one of an origin.
// A value, since a step is decided before anything moves and the specifications speak of it; a closure that is handed out would be boxed.
#[derive(Clone, Copy)]
pub enum QueueMove {
    Keep,
    Enqueue(Event),
    Remove(usize),
    Close(Origin),
    Mark { origin: Origin, plan: u16 },
}

// The stacks stay; one is opened, last in turn; one stands in the place of another; one goes last in turn, in place of the one at a place;
// or the one at a place goes. A value for the same reason.
#[derive(Clone, Copy)]
pub enum StackMove {
    Keep,
    Open,
    Replace(usize),
    Last(usize),
    Remove(usize),
}

// The numbers stay, or an external event was taken or an instance made under a number. A value for the same reason.
#[derive(Clone, Copy)]
pub enum Numbering {
    Keep,
    Taken(Number),
    Made(Number),
}

// The place of the first event of the origin.
#[tactic(auto, unfolding(model::specs::Live::same_origin))]
fn place_of(events: &[Event], origin: Origin) -> Option<usize>
    ensures { result ≡ position (is_of origin) events.now }
{
    events.iter().position(|event| origin == event.origin)
}

impl QueueMove {
    // Makes the move on the state's queue.
    pub fn apply(self, s: &mut State)
        ensures { s.new ≡ requeue self s.old }
    {
        match self {
            QueueMove::Keep => {}
            QueueMove::Enqueue(event) => s.enqueue(event),
            QueueMove::Remove(place) => s.dequeue(place),
            QueueMove::Close(origin) => {
                if let Some(place) = place_of(s.events(), origin) {
                    s.dequeue(place);
                }
            }
            QueueMove::Mark { origin, plan } => {
                if let Some(place) = place_of(s.events(), origin) {
                    let failed = queue::with_failure(s.queue[place], plan);
                    s.put_event(place, failed);
                }
            }
        }
    }
}

impl StackMove {
    // Makes the move on the state's stacks; `stack` is the one that it puts.
    pub fn apply(self, s: &mut State, stack: Stack)
        ensures { s.new ≡ restack self stack s.old }
    {
        match self {
            StackMove::Keep => {}
            StackMove::Open => s.open_last(stack),
            StackMove::Replace(place) => s.put_at(place, stack),
            StackMove::Last(place) => s.turn_last(place, stack),
            StackMove::Remove(place) => s.drop_at(place),
        }
    }
}

impl Numbering {
    // Puts the number into the state.
    pub fn apply(self, s: &mut State)
        ensures { s.new ≡ renumber self s.old }
    {
        match self {
            Numbering::Keep => {}
            Numbering::Taken(number) => s.taken = number,
            Numbering::Made(number) => s.made = number,
        }
    }
}
