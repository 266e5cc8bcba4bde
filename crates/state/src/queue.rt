// The event queue: the events in it, how many of them are external, and one more or less.
ghost use Rattle.std.specs.Prelude.{◌≡◌, ◌-◌, ◌<◌, length};
ghost use Rattle.lists.specs.Counts.{count};
ghost use Rattle.model.specs.Live.{is_external};
ghost use Rattle.state.specs.View.{queued_of, view_queue};
ghost use Rattle.state.specs.Queue.{with_failure, enqueue, dequeue, put_event};

use crate::origin::is_goal;
use crate::{MOST_QUEUED, State};
use model::Event;
use situation::failed;

impl State {
    // The queue.
    pub fn events(&self) -> &[Event]
        ensures value { result.now ≡ view_queue self.now }
        ensures len { length result.now ≡ queued_of self.now }
    {
        &self.queue[..self.queued.min(MOST_QUEUED)]
    }

    // One event more, last; nothing changes where there is no room.
    #[tactic(auto, using(crate::proofs::RowLaws::queue_rows))]
    pub fn enqueue(&mut self, event: Event)
        ensures { self.new ≡ enqueue self.old event }
    {
        self.queued = lists::append(&mut self.queue, self.queued, event);
    }

    // Without the event at a place; nothing changes where no event stands there.
    #[tactic(auto, using(crate::proofs::RowLaws::queue_rows))]
    pub fn dequeue(&mut self, place: usize)
        ensures { self.new ≡ dequeue self.old place }
    {
        self.queued = lists::take_out(&mut self.queue, self.queued, place);
    }

    // Another event at a place; nothing changes where no event stands there.
    #[tactic(auto, using(crate::proofs::RowLaws::queue_rows))]
    pub fn put_event(&mut self, place: usize, event: Event)
        ensures { self.new ≡ put_event self.old place event }
    {
        lists::put_at(&mut self.queue, self.queued, place, event);
    }
}

// How many of the events are external.
pub fn external_count(events: &[Event]) -> usize
    ensures { result ≡ count is_external events.now }
{
    events.iter().filter(|event| !is_goal(event.origin)).count()
}

// The event with one failed plan more.
pub fn with_failure(event: Event, plan: u16) -> Event
    ensures { result ≡ with_failure event plan }
{
    Event {
        failed: failed::with(event.failed, plan),
        ..event
    }
}
