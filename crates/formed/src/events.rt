// The rules for the queue.
ghost use Rattle.std.specs.Prelude.{◌≡◌, ◌||◌, ◌^◌, ltb, leb};
ghost use Rattle.std.specs.List.{list_all};
ghost use Rattle.library.specs.Layout.{library_of};
ghost use Rattle.lists.specs.Search.{distinct};
ghost use Rattle.model.specs.Live.{is_goal};
ghost use Rattle.model.specs.Report.{told_kind};
ghost use Rattle.model.specs.WellFormed.{is_within, is_numbered, is_event_sound, same_event, are_events};

use crate::Tested;
use library::MOST_PLANS;
use library::contents::plan_count;
use model::{Event, MOST_EXTERNAL, Number, Origin, is_reported};
use state::origin::is_goal;
use state::queue::external_count;

// In 1..most.
pub(crate) fn is_within(most: Number, number: Number) -> bool
    ensures { result ≡ is_within most number }
{
    1 <= number && number <= most
}

fn is_numbered(taken: Number, origin: Origin) -> bool
    ensures { result ≡ is_numbered taken origin }
{
    match origin {
        Origin::External(number) => is_within(taken, number),
        Origin::Goal { .. } => true,
    }
}

// A failed set names plans below this number: it has a bit for each of MOST_PLANS.
fn names_plans(failed: u32, plans: u16) -> bool
    ensures { result ≡ ltb failed (2 ^ plans) }
{
    MOST_PLANS <= plans || failed >> plans == 0
}

// Whether no two events have one origin.
fn are_distinct(queue: &[Event]) -> bool
    ensures { result ≡ distinct same_event queue.now }
{
    let mut rest = queue;
    while let [event, others @ ..] = rest {
        if others.iter().any(|other| event.origin == other.origin) {
            return false;
        }
        rest = others;
    }
    true
}

impl Tested<'_> {
    // An external event is of a kind that is reported, every literal is ground, and failed sets name existing plans.
    #[tactic(auto, using(library::proofs::PartLaws::length_plans), unfolding(model::specs::WellFormed::is_event_sound))]
    fn is_event_sound(&self, event: &Event) -> bool
        ensures { result ≡ is_event_sound (library_of self.now.library.now) self.now.taken event.now }
    {
        is_numbered(self.taken, event.origin)
            && (is_goal(event.origin) || is_reported(event.kind))
            && event.literal.is_ground()
            && names_plans(event.failed, plan_count(self.library))
    }

    fn are_sound(&self) -> bool
        ensures { result ≡ list_all (is_event_sound (library_of self.now.library.now) self.now.taken) self.now.queue.now }
    {
        self.queue.iter().all(|event| self.is_event_sound(event))
    }

    // Each event is sound, no two have one origin, and at most 32 are external.
    #[tactic(auto, unfolding(model::specs::WellFormed::are_events))]
    pub(crate) fn are_events(&self) -> bool
        ensures { result ≡ are_events (library_of self.now.library.now) self.now.taken self.now.queue.now }
    {
        self.are_sound() && are_distinct(self.queue) && external_count(self.queue) <= MOST_EXTERNAL
    }
}
